ghost use Rattle.std.specs.Prelude.{◌≤◌, length};
ghost use Rattle.smc_parse.specs.Reading.{Reads};
ghost use Rattle.smc_parse.specs.Texts.{head_plan, head_tree, tail_plan, tail_tree};

use crate::Fault;
use crate::cursor::{must_name, must_word};
use crate::item::read_items;
use crate::parts::{read_by, read_filter, read_first, read_sort};
use smc_query::{Cond, Items, Paths, SortKeys};
use smc_tokens::{Name, Placed, Reserved};
use std::alloc::Global;

/// A query up to `show`.
#[derive(Debug, Drop)]
pub struct Head {
    pub table: Name,
    pub filter: Option<Cond>,
    pub by: Paths,
}

/// A query behind `show`.
#[derive(Debug, Drop)]
pub struct Tail {
    pub items: Items,
    pub sort: SortKeys,
    pub first: Option<u64>,
}

/// A query up to `show`, in whose condition at most so many may be open at one place.
pub fn read_head(
    tokens: &[Placed],
    at: usize,
    depth: u32,
    alloc: Global,
) -> Result<(Head, usize), Fault>
    requires { at ≤ length tokens.now }
    ensures { Reads (head_plan depth) head_tree tokens.now at result }
{
    let named = must_word(tokens, at, Reserved::From)?;
    let (table, filtered) = must_name(tokens, named, alloc)?;
    let (filter, grouped) = read_filter(tokens, filtered, depth, alloc)?;
    let (by, shown) = read_by(tokens, grouped, alloc)?;
    let end = must_word(tokens, shown, Reserved::Show)?;
    Ok((Head { table, filter, by }, end))
}

/// A query behind `show`, in whose calls at most so many may be open at one place.
pub fn read_tail(
    tokens: &[Placed],
    at: usize,
    depth: u32,
    alloc: Global,
) -> Result<(Tail, usize), Fault>
    requires { at ≤ length tokens.now }
    ensures { Reads (tail_plan depth) tail_tree tokens.now at result }
{
    let (items, sorted) = read_items(tokens, at, depth, alloc)?;
    let (sort, counted) = read_sort(tokens, sorted, alloc)?;
    let (first, end) = read_first(tokens, counted)?;
    Ok((Tail { items, sort, first }, end))
}
