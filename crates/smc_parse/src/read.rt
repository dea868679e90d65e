ghost use Rattle.std.specs.Prelude.{◌≤◌, length};
ghost use Rattle.smc_query.specs.Trees.{a_cond, a_query, an_edit, cond_text, cond_tree, edit_text, expr_tree, filter_tree, query_text, query_tree};
ghost use Rattle.smc_parse.specs.Texts.{Ends, ReadsAll};
ghost use Rattle.smc_parse.specs.Places.{SpelledOrFault};

use crate::Fault;
use crate::cond::read_cond as read_condition;
use crate::cursor::token_at;
use crate::expr::read_expr;
use crate::limits::MAX_OPEN;
use crate::parts::read_filter;
use crate::query::{read_head, read_tail};
use smc_query::{Cond, Expr, Query};
use smc_tokens::Placed;
use std::alloc::Global;

// The end, which must be reached at this place.
fn must_end(tokens: &[Placed], at: usize) -> Result<(), Fault>
    requires { at ≤ length tokens.now }
    ensures { Ends tokens.now at result }
{
    match token_at(tokens, at) {
        Some(_) => Err(Fault::Wrong { index: at }),
        None => Ok(()),
    }
}

// A query, of which these are all tokens, as its plan builds it.
fn build_query(tokens: &[Placed], alloc: Global) -> Result<Query, Fault>
    ensures { ReadsAll query_text (λ query. a_query (query_tree query)) tokens.now result }
{
    let (head, middle) = read_head(tokens, 0, MAX_OPEN, alloc)?;
    let (tail, end) = read_tail(tokens, middle, MAX_OPEN - 1, alloc)?;
    must_end(tokens, end)?;
    Ok(Query {
        table: head.table,
        filter: head.filter,
        by: head.by,
        items: tail.items,
        sort: tail.sort,
        first: tail.first,
    })
}

// A condition, of which these are all tokens, as its plan builds it.
fn build_cond(tokens: &[Placed], alloc: Global) -> Result<Cond, Fault>
    ensures { ReadsAll cond_text (λ cond. a_cond (cond_tree cond)) tokens.now result }
{
    let (cond, end) = read_condition(tokens, 0, MAX_OPEN, alloc)?;
    must_end(tokens, end)?;
    Ok(cond)
}

// An edit, of which these are all tokens, as its plan builds it.
fn build_edit(tokens: &[Placed], alloc: Global) -> Result<(Expr, Option<Cond>), Fault>
    ensures { ReadsAll edit_text (λ edit. an_edit (expr_tree edit.0) (filter_tree edit.1)) tokens.now result }
{
    let (value, middle) = read_expr(tokens, 0, MAX_OPEN, alloc)?;
    let (filter, end) = read_filter(tokens, middle, MAX_OPEN, alloc)?;
    must_end(tokens, end)?;
    Ok((value, filter))
}

/// Reads a query, of which these are all tokens.
///
/// A fault stands at the first token of which no query goes on behind those before it, or which opens too much there.
pub fn read_query(tokens: &[Placed], alloc: Global) -> Result<Query, Fault>
    ensures plan { ReadsAll query_text (λ query. a_query (query_tree query)) tokens.now result }
    ensures spells { SpelledOrFault query_text (λ query. a_query (query_tree query)) tokens.now result }
{
    build_query(tokens, alloc)
}

/// Reads a condition, of which these are all tokens.
///
/// A fault stands at the first token of which no condition goes on behind those before it, or which opens too much there.
pub fn read_cond(tokens: &[Placed], alloc: Global) -> Result<Cond, Fault>
    ensures plan { ReadsAll cond_text (λ cond. a_cond (cond_tree cond)) tokens.now result }
    ensures spells { SpelledOrFault cond_text (λ cond. a_cond (cond_tree cond)) tokens.now result }
{
    build_cond(tokens, alloc)
}

/// Reads an edit, of which these are all tokens: an expression, and a condition where there is one.
///
/// A fault stands at the first token of which no edit goes on behind those before it, or which opens too much there.
pub fn read_edit(tokens: &[Placed], alloc: Global) -> Result<(Expr, Option<Cond>), Fault>
    ensures plan { ReadsAll edit_text (λ edit. an_edit (expr_tree edit.0) (filter_tree edit.1)) tokens.now result }
    ensures spells { SpelledOrFault edit_text (λ edit. an_edit (expr_tree edit.0) (filter_tree edit.1)) tokens.now result }
{
    build_edit(tokens, alloc)
}
