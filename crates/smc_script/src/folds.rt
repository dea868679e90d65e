//! The folds that a script still has.
ghost use Rattle.std.specs.Prelude.{◌≡◌};
ghost use Rattle.std.specs.List.{list_all, list_any};
ghost use Rattle.std.specs.Str.{bytes_eq};
ghost use Rattle.smc_query.specs.Trees.{call_tree, query_tree};
ghost use Rattle.smc_script.specs.Faults.{is_left, knows_call, knows_folds};

use crate::name::{FoldName, FoldNames};
use smc_lang::{Item, ItemCall, Query};

// Whether a fold has this name.
fn has_fold(folds: &[FoldName], name: &str) -> bool
    ensures { result ≡ list_any (λ known. bytes_eq known name.now) folds.now }
{
    folds.iter().any(|known| known.as_str() == name)
}

// Whether a fold of this name was handed in, and none of this name dropped.
pub fn is_left(folds: &FoldNames, dropped: &[FoldName], name: &str) -> bool
    ensures { result ≡ is_left folds.now dropped.now name.now }
{
    has_fold(folds.as_slice(), name) & !has_fold(dropped, name)
}

fn knows_call(folds: &FoldNames, dropped: &[FoldName], call: &ItemCall) -> bool
    ensures { result ≡ knows_call folds.now dropped.now (call_tree call.now) }
{
    match call {
        ItemCall::Fold { name, .. } => is_left(folds, dropped, name.as_str()),
        _ => true,
    }
}

// Whether each fold of these columns is left.
fn knows_items(folds: &FoldNames, dropped: &[FoldName], items: &[Item]) -> bool
    ensures { result ≡ list_all (λ item. knows_call folds.now dropped.now (call_tree item.call)) items.now }
{
    items
        .iter()
        .all(|item| knows_call(folds, dropped, &item.call))
}

// Whether each fold of the query is left.
pub fn knows_folds(folds: &FoldNames, dropped: &[FoldName], query: &Query) -> bool
    ensures { result ≡ knows_folds folds.now dropped.now (query_tree query.now).items }
{
    knows_items(folds, dropped, query.items.as_slice())
}
