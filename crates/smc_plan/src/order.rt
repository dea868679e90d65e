//! The sort keys of a query, each found among its output columns.
ghost use Rattle.std.specs.Prelude.{◌≡◌, ◌<◌, length, map, position, IfSome, List};
ghost use Rattle.smc_query.specs.Trees.{item_tree, key_tree, path_tree};
ghost use Rattle.smc_plan.specs.Answers.{Answers};
ghost use Rattle.smc_plan.specs.Planning.{made};
ghost use Rattle.smc_plan.specs.Planned.{planned_keys};
ghost use Rattle.smc_plan.specs.declared.leaf.Leaf.{Leaf};
ghost use Rattle.smc_plan.specs.Orders.{key_column, order_key, same_path, spells};

use crate::{OrderKey, PlanFault};
use smc_query::{Item, Path, SortKey};
use smc_tokens::Name;
use std::alloc::Global;

fn same_path(one: &[Name], other: &[Name]) -> bool
    ensures { result ≡ same_path one.now other.now }
{
    match (one.split_first(), other.split_first()) {
        (None, None) => true,
        (Some((first, rest)), Some((second, others))) => {
            first.as_str() == second.as_str() && same_path(rest, others)
        }
        _ => false,
    }
}

// Whether a path is this label alone.
fn spells(path: &Path, label: &Option<Name>) -> bool
    ensures { result ≡ spells (path_tree path.now) label.now }
{
    let Some(label) = label else {
        return false;
    };
    match path.names.as_slice().split_first() {
        Some((name, behind)) => behind.is_empty() && label.as_str() == name.as_str(),
        None => false,
    }
}

// Where a path stands among the `by` paths.
fn by_place(by: &[Path], path: &Path) -> Option<usize>
    ensures { result ≡ position (λ other. same_path (path_tree other) (path_tree path.now)) by.now }
{
    by.iter().position(|other| same_path(other.names.as_slice(), path.names.as_slice()))
}

// Where the output column of which a path is the label stands among those behind `show`.
fn label_place(items: &[Item], path: &Path) -> Option<usize>
    ensures place { result ≡ position (λ item. spells (path_tree path.now) item.label) items.now }
    ensures within { IfSome result (λ place. place < length items.now) }
{
    items.iter().position(|item| spells(path, &item.label))
}

// The output column that a path spells.
fn key_column(by: &[Path], items: &[Item], path: &Path) -> Option<usize>
    ensures { result ≡ key_column (map path_tree by.now) (map item_tree items.now) (path_tree path.now) }
{
    if let Some(place) = by_place(by, path) {
        return Some(place);
    }
    match label_place(items, path) {
        Some(place) => Some(by.len() + place),
        None => None,
    }
}

// The output column by which a sort key orders.
fn order_key(by: &[Path], items: &[Item], key: &SortKey) -> Result<OrderKey, PlanFault>
    ensures { result ≡ order_key (map path_tree by.now) (map item_tree items.now) (key_tree key.now) }
{
    match key_column(by, items, &key.path) {
        Some(column) => Ok(OrderKey {
            column,
            desc: key.desc,
        }),
        None => Err(PlanFault::NoField),
    }
}

/// The output columns by which sort keys order.
pub(crate) fn order_keys(
    alloc: Global,
    by: &[Path],
    items: &[Item],
    keys: &[SortKey],
) -> Result<Vec<OrderKey>, PlanFault>
    ensures { (leaves : List Leaf) → Answers (λ keys. made leaves keys.items) result
        (planned_keys (map path_tree by.now) (map item_tree items.now) (map key_tree keys.now) leaves) }
{
    let mut columns = Vec::new(alloc);
    for key in keys {
        columns.push(order_key(by, items, key)?)?;
    }
    Ok(columns)
}
