ghost use Rattle.std.specs.Prelude.{◌≡◌, ◌≤◌, length, true, MatchOption};
ghost use Rattle.smc_tokens.specs.declared.token.Token.TheVariants.{Word as OfWord};
ghost use Rattle.smc_tokens.specs.declared.reserved.Reserved.TheVariants as words;
ghost use Rattle.smc_query.specs.Trees.{aggregate, call_tree, expr_tree};
ghost use Rattle.smc_query.specs.Grammar.{aggregate_word};
ghost use Rattle.smc_query.specs.Machine.{argument, call, sees};
ghost use Rattle.smc_parse.specs.Reading.{ahead, Reads, ReadsInPlace, Stands};
ghost use Rattle.smc_parse.specs.Calls.{aggregates_none, aggregates_none_first, meaning};

use crate::Fault;
use crate::cursor::{is_word, must_name, must_sign, token_at};
use crate::expr::read_expr;
use smc_query::{Expr, ItemCall};
use smc_tokens::{Placed, Reserved, Sign, Token};
use std::alloc::Global;

/// What a call makes of one number of each row of a group.
#[derive(Clone, Copy, Debug, Drop, PartialEq, Eq)]
pub enum Kind {
    Sum,
    Avg,
    Min,
    Max,
}

// The kind of call that a word begins, if it does.
fn kind_of(word: Reserved) -> Option<Kind>
    ensures { MatchOption result (aggregates_none word ≡ true) (λ kind. word ≡ aggregate_word (meaning kind)) }
{
    match word {
        Reserved::Sum => Some(Kind::Sum),
        Reserved::Avg => Some(Kind::Avg),
        Reserved::Min => Some(Kind::Min),
        Reserved::Max => Some(Kind::Max),
        _ => None,
    }
}

// The kind of call that begins at a place, if one does.
fn kind_at(tokens: &[Placed], at: usize) -> Option<Kind>
    ensures { MatchOption result (aggregates_none_first (ahead tokens.now at) ≡ true)
        (λ kind. Stands tokens.now at (OfWord (aggregate_word (meaning kind)))) }
{
    let Some(token) = token_at(tokens, at) else {
        return None;
    };
    match token {
        Token::Word(word) => kind_of(*word),
        _ => None,
    }
}

// A call of a kind.
fn call_of(kind: Kind, of: Expr) -> ItemCall
    ensures { call_tree result ≡ aggregate (meaning kind) (expr_tree of) }
{
    match kind {
        Kind::Sum => ItemCall::Sum(of),
        Kind::Avg => ItemCall::Avg(of),
        Kind::Min => ItemCall::Min(of),
        Kind::Max => ItemCall::Max(of),
    }
}

// An expression in the parentheses of a call.
fn read_argument(
    tokens: &[Placed],
    at: usize,
    depth: u32,
    alloc: Global,
) -> Result<(Expr, usize), Fault>
    requires { at ≤ length tokens.now }
    ensures { Reads (argument depth) expr_tree tokens.now at result }
{
    let inner = must_sign(tokens, at, Sign::Open)?;
    let (of, end) = read_expr(tokens, inner, depth, alloc)?;
    let behind = must_sign(tokens, end, Sign::Close)?;
    Ok((of, behind))
}

// `count`, which stands here, and its empty parentheses.
fn read_count(tokens: &[Placed], at: usize, depth: u32) -> Result<(ItemCall, usize), Fault>
    requires within { at ≤ length tokens.now }
    requires count { sees (OfWord words.Count) (ahead tokens.now at) ≡ true }
    ensures { ReadsInPlace (call depth) call_tree tokens.now at result }
{
    let inner = must_sign(tokens, at + 1, Sign::Open)?;
    let behind = must_sign(tokens, inner, Sign::Close)?;
    Ok((ItemCall::Count, behind))
}

// `fold`, which stands here, with its name and its argument.
fn read_fold(
    tokens: &[Placed],
    at: usize,
    depth: u32,
    alloc: Global,
) -> Result<(ItemCall, usize), Fault>
    requires within { at ≤ length tokens.now }
    requires fold { sees (OfWord words.Fold) (ahead tokens.now at) ≡ true }
    ensures { Reads (call depth) call_tree tokens.now at result }
{
    let (name, open) = must_name(tokens, at + 1, alloc)?;
    let (of, end) = read_argument(tokens, open, depth, alloc)?;
    Ok((ItemCall::Fold { name, of }, end))
}

// A call of a kind, whose word stands here, with its argument.
fn read_aggregate(
    tokens: &[Placed],
    at: usize,
    depth: u32,
    kind: Kind,
    alloc: Global,
) -> Result<(ItemCall, usize), Fault>
    requires within { at ≤ length tokens.now }
    requires word { Stands tokens.now at (OfWord (aggregate_word (meaning kind))) }
    ensures { Reads (call depth) call_tree tokens.now at result }
{
    let (of, end) = read_argument(tokens, at + 1, depth, alloc)?;
    Ok((call_of(kind, of), end))
}

/// The call of an output column, in whose parentheses at most so many may be open at one place.
pub fn read_call(
    tokens: &[Placed],
    at: usize,
    depth: u32,
    alloc: Global,
) -> Result<(ItemCall, usize), Fault>
    requires { at ≤ length tokens.now }
    ensures { Reads (call depth) call_tree tokens.now at result }
{
    if is_word(tokens, at, Reserved::Count) {
        return read_count(tokens, at, depth);
    }
    if is_word(tokens, at, Reserved::Fold) {
        return read_fold(tokens, at, depth, alloc);
    }
    match kind_at(tokens, at) {
        Some(kind) => read_aggregate(tokens, at, depth, kind, alloc),
        None => Err(Fault::Wrong { index: at }),
    }
}
