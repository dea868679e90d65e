//! The output columns of a query: the argument of each call typed and tested.
ghost use Rattle.std.specs.Prelude.{◌≡◌, map, IsTrue};
ghost use Rattle.std.specs.List.{list_any};
ghost use Rattle.std.specs.Str.{bytes_eq};
ghost use Rattle.smc_query.specs.Trees.{call_tree, item_tree};
ghost use Rattle.smc_plan.specs.Answers.{Answers};
ghost use Rattle.smc_plan.specs.Bounds.{is_number, is_summable, is_within};
ghost use Rattle.smc_plan.specs.Typed.{is_leaf, kinded_tree, typed_tree};
ghost use Rattle.smc_plan.specs.Outputs.{output_tree};
ghost use Rattle.smc_plan.specs.Planning.{made};
ghost use Rattle.smc_plan.specs.Planned.{output_trees, planned_items};
ghost use Rattle.smc_plan.specs.Items as items;
ghost use Rattle.smc_plan.specs.Items.{folded, is_fold, names_of, planned_call};

use crate::expr::typed_expr;
use crate::kind::{is_number, is_summable};
use crate::{Kinded, Leaves, Output, PlanFault, Typed};
use smc_query::{Item, ItemCall};
use smc_tokens::Name;
use smc_types::Catalog;
use std::alloc::Global;

// Whether one of these names is this one.
fn has_name(names: &[&str], name: &str) -> bool
    ensures { result ≡ list_any (λ known. bytes_eq known.now name.now) names.now }
{
    names.iter().any(|known| *known == name)
}

// Whether a fold of that name was handed in.
fn is_fold(folds: &[&str], name: &str) -> bool
    ensures { result ≡ is_fold (names_of folds.now) name.now }
{
    has_name(folds, name)
}

fn is_leaf(typed: &Typed) -> bool
    ensures { result ≡ is_leaf (typed_tree typed.now) }
{
    matches!(typed, Typed::Leaf(_))
}

// The argument of a sum or an average.
fn summed(of: Kinded) -> Result<Kinded, PlanFault>
    ensures { Answers kinded_tree result (items.summed (kinded_tree of)) }
{
    if !is_number(of.kind) {
        return Err(PlanFault::Types);
    }
    if !is_summable(of.kind) {
        return Err(PlanFault::TooWide);
    }
    Ok(of)
}

// The argument of a least or a greatest.
fn ordered(of: Kinded) -> Result<Kinded, PlanFault>
    ensures { Answers kinded_tree result (items.ordered (kinded_tree of)) }
{
    if !is_number(of.kind) && !is_leaf(&of.typed) {
        return Err(PlanFault::Types);
    }
    Ok(of)
}

// A fold of that name over an expression.
fn folded(alloc: Global, name: &Name, of: Kinded) -> Result<Output, PlanFault>
    ensures { Answers output_tree result (folded name.now (kinded_tree of)) }
{
    if !is_number(of.kind) {
        return Err(PlanFault::Types);
    }
    let name = name.copied(alloc)?;
    Ok(Output::Fold { name, of })
}

/// An output column of a query. Its leaves are placed among the others.
fn planned_call(
    alloc: Global,
    catalog: &Catalog,
    folds: &[&str],
    table: u32,
    leaves: &mut Leaves,
    call: &ItemCall,
) -> Result<Output, PlanFault>
    ensures { Answers (λ output. made leaves.new (output_tree output)) result
        (planned_call catalog.now (names_of folds.now) table (call_tree call.now) leaves.old) }
{
    match call {
        ItemCall::Count => Ok(Output::Count),
        ItemCall::Sum(of) => {
            let of = typed_expr(alloc, catalog, table, leaves, of)?;
            Ok(Output::Sum(summed(of)?))
        }
        ItemCall::Avg(of) => {
            let of = typed_expr(alloc, catalog, table, leaves, of)?;
            Ok(Output::Avg(summed(of)?))
        }
        ItemCall::Min(of) => {
            let of = typed_expr(alloc, catalog, table, leaves, of)?;
            Ok(Output::Min(ordered(of)?))
        }
        ItemCall::Max(of) => {
            let of = typed_expr(alloc, catalog, table, leaves, of)?;
            Ok(Output::Max(ordered(of)?))
        }
        ItemCall::Fold { name, of } => {
            if !is_fold(folds, name.as_str()) {
                return Err(PlanFault::NoField);
            }
            let of = typed_expr(alloc, catalog, table, leaves, of)?;
            folded(alloc, name, of)
        }
    }
}

/// The output columns of a query.
pub(crate) fn planned_items(
    alloc: Global,
    catalog: &Catalog,
    folds: &[&str],
    table: u32,
    leaves: &mut Leaves,
    items: &[Item],
) -> Result<Vec<Output>, PlanFault>
    ensures { Answers (λ outputs. made leaves.new (output_trees outputs.items)) result
        (planned_items catalog.now (names_of folds.now) table (map item_tree items.now) leaves.old) }
{
    let mut outputs = Vec::new(alloc);
    for item in items {
        outputs.push(planned_call(alloc, catalog, folds, table, leaves, &item.call)?)?;
    }
    Ok(outputs)
}
