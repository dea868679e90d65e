ghost use Rattle.std.specs.Prelude.{◌≡◌, ◌≤◌, length, true, false, MatchOption};
ghost use Rattle.smc_tokens.specs.declared.token.Token.TheVariants.{Sign as OfSign, Word as OfWord};
ghost use Rattle.smc_tokens.specs.declared.reserved.Reserved.TheVariants as words;
ghost use Rattle.smc_tokens.specs.declared.sign.Sign.TheVariants as signs;
ghost use Rattle.smc_query.specs.Trees.{expr_tree, cond_tree};
ghost use Rattle.smc_query.specs.Grammar.{op_sign};
ghost use Rattle.smc_query.specs.Machine.{sees, compared, neg, conj, cond};
ghost use Rattle.smc_parse.specs.Reading.{ahead, Stands, Reads};
ghost use Rattle.smc_parse.specs.Chains.{compares_none, compares_none_first};

use crate::Fault;
use crate::cursor::{is_sign, is_word, must_sign, must_word, token_at};
use crate::expr::read_expr;
use crate::nodes::{both_of, either_of, negation_of};
use smc_query::{Cond, Expr, Op};
use smc_tokens::{Placed, Reserved, Sign, Token};
use std::alloc::Global;

// The comparison of a sign, if it is one.
fn op_of(sign: Sign) -> Option<Op>
    ensures { MatchOption result (compares_none sign ≡ true) (λ op. sign ≡ op_sign op) }
{
    match sign {
        Sign::Equal => Some(Op::Equal),
        Sign::Unequal => Some(Op::Unequal),
        Sign::Less => Some(Op::Less),
        Sign::LessEqual => Some(Op::LessEqual),
        Sign::Greater => Some(Op::Greater),
        Sign::GreaterEqual => Some(Op::GreaterEqual),
        _ => None,
    }
}

// The comparison whose sign stands at a place, if one does.
fn op_at(tokens: &[Placed], at: usize) -> Option<Op>
    ensures { MatchOption result (compares_none_first (ahead tokens.now at) ≡ true)
        (λ op. Stands tokens.now at (OfSign (op_sign op))) }
{
    let Some(token) = token_at(tokens, at) else {
        return None;
    };
    match token {
        Token::Sign(sign) => op_of(*sign),
        _ => None,
    }
}

// The right side of a comparison, behind its sign.
fn read_right(
    tokens: &[Placed],
    at: usize,
    depth: u32,
    left: Expr,
    op: Op,
    alloc: Global,
) -> Result<(Cond, usize), Fault>
    requires within { at ≤ length tokens.now }
    requires sign { Stands tokens.now at (OfSign (op_sign op)) }
    ensures { Reads (compared depth (expr_tree left)) cond_tree tokens.now at result }
{
    let (right, end) = read_expr(tokens, at + 1, depth, alloc)?;
    Ok((Cond::Compare { op, left, right }, end))
}

// Both ends of a range, behind the value that is to be within.
fn read_range(
    tokens: &[Placed],
    at: usize,
    depth: u32,
    value: Expr,
    alloc: Global,
) -> Result<(Cond, usize), Fault>
    requires within { at ≤ length tokens.now }
    requires between { sees (OfWord words.Between) (ahead tokens.now at) ≡ true }
    ensures { Reads (compared depth (expr_tree value)) cond_tree tokens.now at result }
{
    let (low, middle) = read_expr(tokens, at + 1, depth, alloc)?;
    let behind = must_word(tokens, middle, Reserved::And)?;
    let (high, end) = read_expr(tokens, behind, depth, alloc)?;
    Ok((Cond::Between { value, low, high }, end))
}

// What stands behind the left side of a comparison.
fn read_compared(
    tokens: &[Placed],
    at: usize,
    depth: u32,
    left: Expr,
    alloc: Global,
) -> Result<(Cond, usize), Fault>
    requires { at ≤ length tokens.now }
    ensures { Reads (compared depth (expr_tree left)) cond_tree tokens.now at result }
{
    if is_word(tokens, at, Reserved::Between) {
        return read_range(tokens, at, depth, left, alloc);
    }
    match op_at(tokens, at) {
        Some(op) => read_right(tokens, at, depth, left, op, alloc),
        None => Err(Fault::Wrong { index: at }),
    }
}

// A comparison, which opens nothing that a condition opens.
fn read_comparison(
    tokens: &[Placed],
    at: usize,
    depth: u32,
    alloc: Global,
) -> Result<(Cond, usize), Fault>
    requires within { at ≤ length tokens.now }
    requires no_not { sees (OfWord words.Not) (ahead tokens.now at) ≡ false }
    requires no_open { sees (OfSign signs.OpenBracket) (ahead tokens.now at) ≡ false }
    ensures { Reads (neg depth) cond_tree tokens.now at result }
{
    let (left, end) = read_expr(tokens, at, depth, alloc)?;
    read_compared(tokens, end, depth, left, alloc)
}

// A condition in brackets, of which the first stands here.
#[cycle(condition)]
fn read_brackets(
    tokens: &[Placed],
    at: usize,
    depth: u32,
    alloc: Global,
) -> Result<(Cond, usize), Fault>
    requires within { at ≤ length tokens.now }
    requires open { sees (OfSign signs.OpenBracket) (ahead tokens.now at) ≡ true }
    ensures { Reads (neg depth) cond_tree tokens.now at result }
{
    if depth == 0 {
        return Err(Fault::TooDeep { index: at });
    }
    let (of, end) = read_cond(tokens, at + 1, depth - 1, alloc)?;
    let behind = must_sign(tokens, end, Sign::CloseBracket)?;
    Ok((of, behind))
}

// One part of a conjunction.
#[cycle(condition)]
fn read_neg(tokens: &[Placed], at: usize, depth: u32, alloc: Global) -> Result<(Cond, usize), Fault>
    requires { at ≤ length tokens.now }
    ensures { Reads (neg depth) cond_tree tokens.now at result }
{
    if is_word(tokens, at, Reserved::Not) {
        if depth == 0 {
            return Err(Fault::TooDeep { index: at });
        }
        let (of, end) = read_neg(tokens, at + 1, depth - 1, alloc)?;
        return Ok((negation_of(alloc, of)?, end));
    }
    if is_sign(tokens, at, Sign::OpenBracket) {
        return read_brackets(tokens, at, depth, alloc);
    }
    read_comparison(tokens, at, depth, alloc)
}

// Parts with `and` between them.
#[cycle(condition)]
fn read_conj(
    tokens: &[Placed],
    at: usize,
    depth: u32,
    alloc: Global,
) -> Result<(Cond, usize), Fault>
    requires { at ≤ length tokens.now }
    ensures { Reads (conj depth) cond_tree tokens.now at result }
{
    let (mut left, mut end) = read_neg(tokens, at, depth, alloc)?;
    while is_word(tokens, end, Reserved::And) {
        let (right, next) = read_neg(tokens, end + 1, depth, alloc)?;
        left = both_of(alloc, left, right)?;
        end = next;
    }
    Ok((left, end))
}

/// Conjunctions with `or` between them, in which at most so many may be open at one place.
#[cycle(condition)]
pub fn read_cond(
    tokens: &[Placed],
    at: usize,
    depth: u32,
    alloc: Global,
) -> Result<(Cond, usize), Fault>
    requires { at ≤ length tokens.now }
    ensures { Reads (cond depth) cond_tree tokens.now at result }
{
    let (mut left, mut end) = read_conj(tokens, at, depth, alloc)?;
    while is_word(tokens, end, Reserved::Or) {
        let (right, next) = read_conj(tokens, end + 1, depth, alloc)?;
        left = either_of(alloc, left, right)?;
        end = next;
    }
    Ok((left, end))
}
