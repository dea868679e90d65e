//! A whole query: its parts planned in the order of the text.
ghost use Rattle.std.specs.Prelude.{◌≡◌, ◌⊎◌, List, [], Ok, Err, IfOk, IfErr, map, option_copied};
ghost use Rattle.smc_query.specs.Trees.{filter_tree, path_tree, query_tree};
ghost use Rattle.smc_plan.specs.Answers.{Answers, and_then};
ghost use Rattle.smc_plan.specs.Items.{names_of};
ghost use Rattle.smc_plan.specs.Planning.{made};
ghost use Rattle.smc_plan.specs.Planned as plans;
ghost use Rattle.smc_plan.specs.Planned.{filter_condition, placed_path, placed_paths, plan_tree, planned, planned_filter, planned_parts};
ghost use Rattle.smc_plan.specs.declared.fault.PlanFault.TheVariants.{NoMemory};

use crate::cond::typed_cond;
use crate::item::planned_items;
use crate::order::order_keys;
use crate::path::leaf_of;
use crate::table::table_named;
use crate::{Leaves, OrderKeys, Outputs, Places, Plan, PlanFault, TypedCond};
use smc_query::{Cond, Path, Query};
use smc_types::Catalog;
use std::alloc::Global;

/// The condition behind `where`, if there is one.
pub(crate) fn planned_filter(
    alloc: Global,
    catalog: &Catalog,
    table: u32,
    leaves: &mut Leaves,
    filter: Option<&Cond>,
) -> Result<Option<TypedCond>, PlanFault>
    ensures { Answers (λ typed. made leaves.new (filter_condition typed)) result
        (planned_filter catalog.now table (filter_tree (option_copied filter.entry)) leaves.old) }
{
    match filter {
        None => Ok(None),
        Some(cond) => {
            let typed = typed_cond(alloc, catalog, table, leaves, cond)?;
            Ok(Some(typed))
        }
    }
}

// The place of the leaf of a path among the others.
fn placed_path(
    alloc: Global,
    catalog: &Catalog,
    table: u32,
    leaves: &mut Leaves,
    path: &Path,
) -> Result<usize, PlanFault>
    ensures { Answers (λ place. made leaves.new place) result
        (placed_path catalog.now table (path_tree path.now) leaves.old) }
{
    let leaf = leaf_of(alloc, catalog, table, path)?;
    let place = leaves.place(leaf)?;
    Ok(place)
}

// The places of the leaves of paths.
fn placed_paths(
    alloc: Global,
    catalog: &Catalog,
    table: u32,
    leaves: &mut Leaves,
    paths: &[Path],
) -> Result<Vec<usize>, PlanFault>
    ensures { Answers (λ places. made leaves.new places.items) result
        (placed_paths catalog.now table (map path_tree paths.now) leaves.old) }
{
    let mut places = Vec::new(alloc);
    for path in paths {
        places.push(placed_path(alloc, catalog, table, leaves, path)?)?;
    }
    Ok(places)
}

// The plan of a query over that table.
fn planned_parts(
    alloc: Global,
    catalog: &Catalog,
    folds: &[&str],
    table: u32,
    query: &Query,
) -> Result<Plan, PlanFault>
    ensures { Answers plan_tree result
        (and_then (planned_parts catalog.now (names_of folds.now) table (query_tree query.now) []) (λ all. Ok all.part)) }
{
    let mut leaves = Leaves::new(alloc);
    let filter = planned_filter(alloc, catalog, table, &mut leaves, query.filter.as_ref())?;
    let paths = query.by.as_slice();
    let by = placed_paths(alloc, catalog, table, &mut leaves, paths)?;
    let shown = query.items.as_slice();
    let items = planned_items(alloc, catalog, folds, table, &mut leaves, shown)?;
    let sort = order_keys(alloc, paths, shown, query.sort.as_slice())?;
    Ok(Plan {
        leaves,
        filter,
        by: Places::of(by),
        items: Outputs::of(items),
        sort: OrderKeys::of(sort),
        first: query.first,
    })
}

/// The plan of a query over a catalog, in which the folds of these names may be called.
pub fn plan_query(
    alloc: Global,
    query: &Query,
    catalog: &Catalog,
    folds: &[&str],
) -> Result<Plan, PlanFault>
    ensures done { IfOk result (λ plan.
        planned catalog.now (names_of folds.now) (query_tree query.now) ≡ Ok (plan_tree plan)) }
    ensures fault { IfErr result (λ fault. (fault ≡ NoMemory)
        ⊎ (planned catalog.now (names_of folds.now) (query_tree query.now) ≡ Err fault)) }
{
    let Some(table) = table_named(catalog, query.table.as_str()) else {
        return Err(PlanFault::NoTable);
    };
    planned_parts(alloc, catalog, folds, table, query)
}
