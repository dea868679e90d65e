//! Paths and expressions.
#![tactic(auto, using(crate::proofs::WriteLaws::writing))]

ghost use Rattle.std.specs.Prelude.{◌≡◌, ◌∷◌, ◌++◌, [], List, ℕ, OnOk, if◌then◌else◌, nat_eq};
ghost use Rattle.smc_query.specs.Trees.{expr_tree, path_tree};
ghost use Rattle.smc_tokens.specs.declared.token.Token.TheVariants as tokens;
ghost use Rattle.smc_print.specs.TokenText.{Writes};
ghost use Rattle.smc_print.specs.Printed.{expr_tokens, operand_tokens, path_tokens, is_compound, argument_tokens, between};

use crate::token::{write_date, write_name, write_number, write_quoted, write_sign};
use smc_query::{Expr, Path};
use smc_tokens::Sign;
use smc_words::NoMemory;

/// Writes an expression.
#[cycle(expr)]
pub fn write_expr(text: &mut String, expr: &Expr) -> Result<(), NoMemory>
    ensures { OnOk result (Writes text.old text.new (expr_tokens (expr_tree expr.now))) }
{
    match expr {
        Expr::Number { units, decimals } => write_number(text, *units, *decimals),
        Expr::Date { year, month, day } => write_date(text, *year, *month, *day),
        Expr::Text(quoted) => write_quoted(text, quoted),
        Expr::Field(path) => write_path(text, path),
        Expr::Add(left, right) => {
            write_operand(text, left)?;
            write_sign(text, Sign::Plus)?;
            write_operand(text, right)
        }
        Expr::Sub(left, right) => {
            write_operand(text, left)?;
            write_sign(text, Sign::Minus)?;
            write_operand(text, right)
        }
        Expr::Mul(left, right) => {
            write_operand(text, left)?;
            write_sign(text, Sign::Star)?;
            write_operand(text, right)
        }
        Expr::Minus(of) => {
            write_sign(text, Sign::Minus)?;
            write_operand(text, of)
        }
    }
}

// Writes an operand of a sum, difference, product or minus.
#[cycle(expr)]
fn write_operand(text: &mut String, of: &Expr) -> Result<(), NoMemory>
    ensures { OnOk result (Writes text.old text.new (operand_tokens (expr_tree of.now))) }
{
    if !is_compound(of) {
        return write_expr(text, of);
    }
    write_sign(text, Sign::Open)?;
    write_expr(text, of)?;
    write_sign(text, Sign::Close)
}

// Whether an expression is a sum, difference, product or minus.
fn is_compound(expr: &Expr) -> bool
    ensures { result ≡ is_compound (expr_tree expr.now) }
{
    matches!(
        expr,
        Expr::Add(..) | Expr::Sub(..) | Expr::Mul(..) | Expr::Minus(..)
    )
}

/// Writes the argument of a call in its parentheses.
pub fn write_argument(text: &mut String, of: &Expr) -> Result<(), NoMemory>
    ensures { OnOk result (Writes text.old text.new (argument_tokens (expr_tree of.now))) }
{
    write_sign(text, Sign::Open)?;
    write_expr(text, of)?;
    write_sign(text, Sign::Close)
}

/// Writes a path, its names with points between.
pub fn write_path(text: &mut String, path: &Path) -> Result<(), NoMemory>
    ensures { OnOk result (Writes text.old text.new (path_tokens (path_tree path.now))) }
{
    let names = path.names.as_slice();
    for (place, name) in names.iter().enumerate() {
        write_between(text, place, Sign::Dot)?;
        write_name(text, name)?;
    }
    Ok(())
}

/// Writes the sign behind the part at this place of a list, where there is one before it.
pub fn write_between(text: &mut String, place: usize, sign: Sign) -> Result<(), NoMemory>
    ensures { OnOk result (Writes text.old text.new (between place sign)) }
{
    if place == 0 {
        return Ok(());
    }
    write_sign(text, sign)
}
