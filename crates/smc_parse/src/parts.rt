ghost use Rattle.std.specs.Prelude.{◌≤◌, length, map};
ghost use Rattle.smc_query.specs.Trees.{filter_tree, key_tree, path_tree};
ghost use Rattle.smc_query.specs.Machine.{by, filter, first, sort};
ghost use Rattle.smc_parse.specs.Reading.{Reads, ReadsInPlace};

use crate::Fault;
use crate::cond::read_cond;
use crate::cursor::{is_word, must_whole};
use crate::key::read_keys;
use crate::path::read_paths;
use smc_query::{Cond, Paths, SortKeys};
use smc_tokens::{Placed, Reserved};
use std::alloc::Global;

/// `where` and a condition, or nothing.
pub fn read_filter(
    tokens: &[Placed],
    at: usize,
    depth: u32,
    alloc: Global,
) -> Result<(Option<Cond>, usize), Fault>
    requires { at ≤ length tokens.now }
    ensures { Reads (filter depth) filter_tree tokens.now at result }
{
    if is_word(tokens, at, Reserved::Where) {
        let (cond, end) = read_cond(tokens, at + 1, depth, alloc)?;
        return Ok((Some(cond), end));
    }
    Ok((None, at))
}

/// `by` and paths, or nothing.
pub fn read_by(tokens: &[Placed], at: usize, alloc: Global) -> Result<(Paths, usize), Fault>
    requires { at ≤ length tokens.now }
    ensures { Reads by (λ paths. map path_tree paths) tokens.now at result }
{
    if is_word(tokens, at, Reserved::By) {
        let (paths, end) = read_paths(tokens, at + 1, alloc)?;
        return Ok((paths, end));
    }
    Ok((Paths::of(Vec::new(alloc)), at))
}

/// `sort` and keys, or nothing.
pub fn read_sort(tokens: &[Placed], at: usize, alloc: Global) -> Result<(SortKeys, usize), Fault>
    requires { at ≤ length tokens.now }
    ensures { Reads sort (λ keys. map key_tree keys) tokens.now at result }
{
    if is_word(tokens, at, Reserved::Sort) {
        let (keys, end) = read_keys(tokens, at + 1, alloc)?;
        return Ok((keys, end));
    }
    Ok((SortKeys::of(Vec::new(alloc)), at))
}

/// `first` and a number without decimals, or nothing.
pub fn read_first(tokens: &[Placed], at: usize) -> Result<(Option<u64>, usize), Fault>
    requires { at ≤ length tokens.now }
    ensures { ReadsInPlace first (λ count. count) tokens.now at result }
{
    if is_word(tokens, at, Reserved::First) {
        let (count, end) = must_whole(tokens, at + 1)?;
        return Ok((Some(count), end));
    }
    Ok((None, at))
}
