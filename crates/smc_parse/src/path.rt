ghost use Rattle.std.specs.Prelude.{◌≤◌, length, map};
ghost use Rattle.smc_query.specs.Trees.{path_tree};
ghost use Rattle.smc_query.specs.Machine.{path};
ghost use Rattle.smc_parse.specs.Reading.{Reads};
ghost use Rattle.smc_parse.specs.Parts.{path_list};

use crate::Fault;
use crate::cursor::{is_sign, must_name};
use smc_query::{Names, Path, Paths};
use smc_tokens::{Placed, Sign};
use std::alloc::Global;

/// Names with dots between them.
pub fn read_path(tokens: &[Placed], at: usize, alloc: Global) -> Result<(Path, usize), Fault>
    requires { at ≤ length tokens.now }
    ensures { Reads path path_tree tokens.now at result }
{
    let mut names = Vec::new(alloc);
    let (first, mut end) = must_name(tokens, at, alloc)?;
    names.push(first)?;
    while is_sign(tokens, end, Sign::Dot) {
        let (name, next) = must_name(tokens, end + 1, alloc)?;
        names.push(name)?;
        end = next;
    }
    Ok((
        Path {
            names: Names::of(names),
        },
        end,
    ))
}

/// Paths with commas between them.
pub fn read_paths(tokens: &[Placed], at: usize, alloc: Global) -> Result<(Paths, usize), Fault>
    requires { at ≤ length tokens.now }
    ensures { Reads path_list (λ paths. map path_tree paths) tokens.now at result }
{
    let mut paths = Vec::new(alloc);
    let (first, mut end) = read_path(tokens, at, alloc)?;
    paths.push(first)?;
    while is_sign(tokens, end, Sign::Comma) {
        let (path, next) = read_path(tokens, end + 1, alloc)?;
        paths.push(path)?;
        end = next;
    }
    Ok((Paths::of(paths), end))
}
