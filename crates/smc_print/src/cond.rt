//! Conditions.
#![tactic(auto, using(crate::proofs::WriteLaws::writing))]

ghost use Rattle.std.specs.Prelude.{◌≡◌, OnOk};
ghost use Rattle.smc_query.specs.Trees.{cond_tree};
ghost use Rattle.smc_query.specs.Grammar.{op_sign};
ghost use Rattle.smc_print.specs.TokenText.{Writes};
ghost use Rattle.smc_print.specs.Printed.{cond_tokens, side_tokens, is_joined};

use crate::expr::write_expr;
use crate::token::{write_sign, write_word};
use smc_query::{Cond, Op};
use smc_tokens::{Reserved, Sign};
use smc_words::NoMemory;

/// Writes a condition.
#[cycle(cond)]
pub fn write_cond(text: &mut String, cond: &Cond) -> Result<(), NoMemory>
    ensures { OnOk result (Writes text.old text.new (cond_tokens (cond_tree cond.now))) }
{
    match cond {
        Cond::Or(left, right) => {
            write_side(text, left)?;
            write_word(text, Reserved::Or)?;
            write_side(text, right)
        }
        Cond::And(left, right) => {
            write_side(text, left)?;
            write_word(text, Reserved::And)?;
            write_side(text, right)
        }
        Cond::Not(of) => {
            write_word(text, Reserved::Not)?;
            write_side(text, of)
        }
        Cond::Compare { op, left, right } => {
            write_expr(text, left)?;
            write_sign(text, sign_of(*op))?;
            write_expr(text, right)
        }
        Cond::Between { value, low, high } => {
            write_expr(text, value)?;
            write_word(text, Reserved::Between)?;
            write_expr(text, low)?;
            write_word(text, Reserved::And)?;
            write_expr(text, high)
        }
    }
}

// Writes an operand of `or`, `and` or `not`.
#[cycle(cond)]
fn write_side(text: &mut String, of: &Cond) -> Result<(), NoMemory>
    ensures { OnOk result (Writes text.old text.new (side_tokens (cond_tree of.now))) }
{
    if !is_joined(of) {
        return write_cond(text, of);
    }
    write_sign(text, Sign::OpenBracket)?;
    write_cond(text, of)?;
    write_sign(text, Sign::CloseBracket)
}

// Whether a condition is made of others by `or`, `and` or `not`.
fn is_joined(cond: &Cond) -> bool
    ensures { result ≡ is_joined (cond_tree cond.now) }
{
    matches!(cond, Cond::Or(..) | Cond::And(..) | Cond::Not(..))
}

// The sign of a comparison.
fn sign_of(op: Op) -> Sign
    ensures { result ≡ op_sign op }
{
    match op {
        Op::Equal => Sign::Equal,
        Op::Unequal => Sign::Unequal,
        Op::Less => Sign::Less,
        Op::LessEqual => Sign::LessEqual,
        Op::Greater => Sign::Greater,
        Op::GreaterEqual => Sign::GreaterEqual,
    }
}
