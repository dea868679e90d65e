ghost use Rattle.std.specs.Prelude.{◌≤◌, length, map};
ghost use Rattle.smc_query.specs.Trees.{key_tree};
ghost use Rattle.smc_query.specs.Machine.{key};
ghost use Rattle.smc_parse.specs.Reading.{Reads};
ghost use Rattle.smc_parse.specs.Parts.{key_list};

use crate::Fault;
use crate::cursor::{is_sign, is_word};
use crate::path::read_path;
use smc_query::{SortKey, SortKeys};
use smc_tokens::{Placed, Reserved, Sign};
use std::alloc::Global;

// A path, and `desc` behind it or nothing.
fn read_key(tokens: &[Placed], at: usize, alloc: Global) -> Result<(SortKey, usize), Fault>
    requires { at ≤ length tokens.now }
    ensures { Reads key key_tree tokens.now at result }
{
    let (path, end) = read_path(tokens, at, alloc)?;
    if is_word(tokens, end, Reserved::Desc) {
        return Ok((SortKey { path, desc: true }, end + 1));
    }
    Ok((SortKey { path, desc: false }, end))
}

/// Sort keys with commas between them.
pub fn read_keys(tokens: &[Placed], at: usize, alloc: Global) -> Result<(SortKeys, usize), Fault>
    requires { at ≤ length tokens.now }
    ensures { Reads key_list (λ keys. map key_tree keys) tokens.now at result }
{
    let mut keys = Vec::new(alloc);
    let (first, mut end) = read_key(tokens, at, alloc)?;
    keys.push(first)?;
    while is_sign(tokens, end, Sign::Comma) {
        let (key, next) = read_key(tokens, end + 1, alloc)?;
        keys.push(key)?;
        end = next;
    }
    Ok((SortKeys::of(keys), end))
}
