ghost use Rattle.std.specs.Prelude.{◌≤◌, length, map};
ghost use Rattle.smc_query.specs.Trees.{item_tree};
ghost use Rattle.smc_query.specs.Machine.{item};
ghost use Rattle.smc_parse.specs.Reading.{Reads};
ghost use Rattle.smc_parse.specs.Parts.{item_list, label};

use crate::Fault;
use crate::call::read_call;
use crate::cursor::{is_sign, is_word, must_name};
use smc_query::{Item, Items};
use smc_tokens::{Name, Placed, Reserved, Sign};
use std::alloc::Global;

// `as` and a name, or nothing.
fn read_label(tokens: &[Placed], at: usize, alloc: Global) -> Result<(Option<Name>, usize), Fault>
    requires { at ≤ length tokens.now }
    ensures { Reads label (λ text. text) tokens.now at result }
{
    if is_word(tokens, at, Reserved::As) {
        let (name, end) = must_name(tokens, at + 1, alloc)?;
        return Ok((Some(name), end));
    }
    Ok((None, at))
}

// An output column.
fn read_item(
    tokens: &[Placed],
    at: usize,
    depth: u32,
    alloc: Global,
) -> Result<(Item, usize), Fault>
    requires { at ≤ length tokens.now }
    ensures { Reads (item depth) item_tree tokens.now at result }
{
    let (call, behind) = read_call(tokens, at, depth, alloc)?;
    let (label, end) = read_label(tokens, behind, alloc)?;
    Ok((Item { call, label }, end))
}

/// Output columns with commas between them.
pub fn read_items(
    tokens: &[Placed],
    at: usize,
    depth: u32,
    alloc: Global,
) -> Result<(Items, usize), Fault>
    requires { at ≤ length tokens.now }
    ensures { Reads (item_list depth) (λ items. map item_tree items) tokens.now at result }
{
    let mut items = Vec::new(alloc);
    let (first, mut end) = read_item(tokens, at, depth, alloc)?;
    items.push(first)?;
    while is_sign(tokens, end, Sign::Comma) {
        let (item, next) = read_item(tokens, end + 1, depth, alloc)?;
        items.push(item)?;
        end = next;
    }
    Ok((Items::of(items), end))
}
