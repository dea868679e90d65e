ghost use Rattle.std.specs.Prelude.{◌≡◌, ℕ, ◌+◌, ◌≤◌, length, true, false, IfOk, MatchOption};
ghost use Rattle.smc_tokens.specs.declared.token.Token.TheVariants.{Sign as OfSign};
ghost use Rattle.smc_tokens.specs.declared.sign.Sign.TheVariants as signs;
ghost use Rattle.smc_query.specs.Trees.{expr_tree};
ghost use Rattle.smc_query.specs.Machine.{sees, factor, term, expr};
ghost use Rattle.smc_parse.specs.Reading.{ahead, Reads};
ghost use Rattle.smc_parse.specs.Chains.{joined, HasTerm, HasNoTerm};

use crate::Fault;
use crate::cursor::{is_sign, must_sign, token_at};
use crate::nodes::{difference_of, minus_of, product_of, sum_of};
use crate::path::read_path;
use smc_query::Expr;
use smc_tokens::{Placed, Sign, Token};
use smc_words::NoMemory;
use std::alloc::Global;

/// What joins a term to those before it.
#[derive(Clone, Copy, Debug, Drop, PartialEq, Eq)]
pub enum Joint {
    Plus,
    Minus,
}

// The sign between two terms, where there is one.
fn joint_at(tokens: &[Placed], at: usize) -> Option<Joint>
    requires { at ≤ length tokens.now }
    ensures { MatchOption result (HasNoTerm tokens.now at) (λ joint. HasTerm joint tokens.now at) }
{
    if is_sign(tokens, at, Sign::Plus) {
        return Some(Joint::Plus);
    }
    if is_sign(tokens, at, Sign::Minus) {
        return Some(Joint::Minus);
    }
    None
}

// A term joined to those before it.
fn join(alloc: Global, joint: Joint, left: Expr, right: Expr) -> Result<Expr, NoMemory>
    ensures { IfOk result (λ node. expr_tree node ≡ joined joint (expr_tree left) (expr_tree right)) }
{
    match joint {
        Joint::Plus => sum_of(alloc, left, right),
        Joint::Minus => difference_of(alloc, left, right),
    }
}

// A factor that opens nothing.
fn read_leaf(tokens: &[Placed], at: usize, alloc: Global) -> Result<(Expr, usize), Fault>
    requires within { at ≤ length tokens.now }
    requires no_minus { sees (OfSign signs.Minus) (ahead tokens.now at) ≡ false }
    requires no_open { sees (OfSign signs.Open) (ahead tokens.now at) ≡ false }
    ensures { (depth : ℕ) → Reads (factor depth) expr_tree tokens.now at result }
{
    let Some(token) = token_at(tokens, at) else {
        return Err(Fault::Wrong { index: at });
    };
    match token {
        Token::Number { units, decimals } => Ok((
            Expr::Number {
                units: *units,
                decimals: *decimals,
            },
            at + 1,
        )),
        Token::Date { year, month, day } => Ok((
            Expr::Date {
                year: *year,
                month: *month,
                day: *day,
            },
            at + 1,
        )),
        Token::Text(text) => Ok((Expr::Text(text.copied(alloc)?), at + 1)),
        Token::Name(_) => {
            let (path, end) = read_path(tokens, at, alloc)?;
            Ok((Expr::Field(path), end))
        }
        Token::Word(_) => Err(Fault::Wrong { index: at }),
        Token::Sign(_) => Err(Fault::Wrong { index: at }),
    }
}

// One part of a term.
#[cycle(expression)]
fn read_factor(
    tokens: &[Placed],
    at: usize,
    depth: u32,
    alloc: Global,
) -> Result<(Expr, usize), Fault>
    requires { at ≤ length tokens.now }
    ensures { Reads (factor depth) expr_tree tokens.now at result }
{
    if is_sign(tokens, at, Sign::Minus) {
        if depth == 0 {
            return Err(Fault::TooDeep { index: at });
        }
        let (of, end) = read_factor(tokens, at + 1, depth - 1, alloc)?;
        return Ok((minus_of(alloc, of)?, end));
    }
    if is_sign(tokens, at, Sign::Open) {
        return read_parentheses(tokens, at, depth, alloc);
    }
    read_leaf(tokens, at, alloc)
}

// An expression in parentheses, of which the first stands here.
#[cycle(expression)]
fn read_parentheses(
    tokens: &[Placed],
    at: usize,
    depth: u32,
    alloc: Global,
) -> Result<(Expr, usize), Fault>
    requires within { at ≤ length tokens.now }
    requires open { sees (OfSign signs.Open) (ahead tokens.now at) ≡ true }
    ensures { Reads (factor depth) expr_tree tokens.now at result }
{
    if depth == 0 {
        return Err(Fault::TooDeep { index: at });
    }
    let (of, end) = read_expr(tokens, at + 1, depth - 1, alloc)?;
    let behind = must_sign(tokens, end, Sign::Close)?;
    Ok((of, behind))
}

// Factors with stars between them.
#[cycle(expression)]
fn read_term(
    tokens: &[Placed],
    at: usize,
    depth: u32,
    alloc: Global,
) -> Result<(Expr, usize), Fault>
    requires { at ≤ length tokens.now }
    ensures { Reads (term depth) expr_tree tokens.now at result }
{
    let (mut left, mut end) = read_factor(tokens, at, depth, alloc)?;
    while is_sign(tokens, end, Sign::Star) {
        let (right, next) = read_factor(tokens, end + 1, depth, alloc)?;
        left = product_of(alloc, left, right)?;
        end = next;
    }
    Ok((left, end))
}

/// Terms with plus and minus between them, in which at most so many may be open at one place.
#[cycle(expression)]
pub fn read_expr(
    tokens: &[Placed],
    at: usize,
    depth: u32,
    alloc: Global,
) -> Result<(Expr, usize), Fault>
    requires { at ≤ length tokens.now }
    ensures { Reads (expr depth) expr_tree tokens.now at result }
{
    let (mut left, mut end) = read_term(tokens, at, depth, alloc)?;
    while let Some(joint) = joint_at(tokens, end) {
        let (right, next) = read_term(tokens, end + 1, depth, alloc)?;
        left = join(alloc, joint, left, right)?;
        end = next;
    }
    Ok((left, end))
}
