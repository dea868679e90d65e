//! The commands on the rows of a table that meet a condition.
ghost use Rattle.std.specs.Prelude.{◌≡◌, ◌<◌, true, IfOk, is_ok, length, option_copied};
ghost use Rattle.smc_region.specs.Callers.{IsPassOf, IsSame};
ghost use Rattle.smc_does.specs.Does.{DoesSome, OwnsNone};
ghost use Rattle.smc_query.specs.Trees.{cond_tree, expr_tree, filter_tree};
ghost use Rattle.smc_types.specs.Tables.{the_tables};
ghost use Rattle.smc_replies.specs.Commands.{IsTableOf};
ghost use Rattle.smc_replies.specs.Commands as commands;
ghost use Rattle.smc_replies.specs.Edits.{DeletesWhere, UpdatesWhere, delete_plan, update_plan};

use crate::reply::{Reply, deleted_line, updated_line};
use crate::tables::table_name;
use smc_exec::{delete_rows, update_rows};
use smc_plan::{PlanFault, plan_delete, plan_edit};
use smc_query::{Cond, Expr};
use smc_region::{Pass, Region};
use smc_script::Place;
use smc_tokens::Name;
use smc_types::Catalog;
use smc_words::NoMemory;
use std::alloc::Global;

/// Whether a delete from the table has a plan.
pub(crate) fn can_delete(
    alloc: Global,
    place: Place,
    filter: &Cond,
    catalog: &Catalog,
) -> Result<bool, NoMemory>
    requires tables { catalog.now ≡ the_tables }
    ensures { IfOk result (λ can. can ≡ is_ok (delete_plan (commands.table_name place.table) (cond_tree filter.now))) }
{
    match plan_delete(alloc, table_name(catalog, place.table), filter, catalog) {
        Ok(_) => Ok(true),
        Err(PlanFault::NoMemory) => Err(NoMemory),
        Err(_) => Ok(false),
    }
}

/// Removes the objects of the table whose rows meet the condition.
pub(crate) fn delete(
    alloc: Global,
    place: Place,
    filter: &Cond,
    catalog: &Catalog,
    pass: Pass,
    region: &Region,
) -> (Pass, Result<Reply, NoMemory>)
    requires here { IsPassOf region.now pass }
    requires tables { catalog.now ≡ the_tables }
    requires planned { is_ok (delete_plan (commands.table_name place.table) (cond_tree filter.now)) ≡ true }
    requires coll { place.coll < length region.now.about.shape.colls }
    ensures done { IfOk result.1 (λ reply. DoesSome pass result.0 (λ calls.
        DeletesWhere region.now.about.shape (commands.table_name place.table) place.coll (cond_tree filter.now) calls reply)) }
    ensures home { IsSame pass result.0 × (OwnsNone pass → OwnsNone result.0) }
{
    let plan = match plan_delete(alloc, table_name(catalog, place.table), filter, catalog) {
        Ok(plan) => plan,
        Err(PlanFault::NoMemory) => return (pass, Err(NoMemory)),
        Err(_) => unreachable!(),
    };
    let (pass, removed) = delete_rows(alloc, &plan, pass, region, place.coll);
    match removed {
        Ok(removed) => (pass, deleted_line(alloc, removed)),
        Err(fault) => (pass, Err(fault)),
    }
}

/// Whether an update of the table has a plan.
pub(crate) fn can_update(
    alloc: Global,
    place: Place,
    column: &Name,
    value: &Expr,
    filter: Option<&Cond>,
    catalog: &Catalog,
) -> Result<bool, NoMemory>
    requires tables { catalog.now ≡ the_tables }
    ensures { IfOk result (λ can. can ≡ is_ok (update_plan (commands.table_name place.table) column.now (expr_tree value.now) (filter_tree (option_copied filter.entry)))) }
{
    let table = table_name(catalog, place.table);
    match plan_edit(alloc, table, column.as_str(), value, filter, catalog) {
        Ok(_) => Ok(true),
        Err(PlanFault::NoMemory) => Err(NoMemory),
        Err(_) => Ok(false),
    }
}

/// Writes the value into the column of the objects of the table whose rows meet the condition.
pub(crate) fn update(
    alloc: Global,
    place: Place,
    column: &Name,
    value: &Expr,
    filter: Option<&Cond>,
    catalog: &Catalog,
    pass: Pass,
    region: &Region,
) -> (Pass, Result<Reply, NoMemory>)
    requires here { IsPassOf region.now pass }
    requires tables { catalog.now ≡ the_tables }
    requires planned { is_ok (update_plan (commands.table_name place.table) column.now (expr_tree value.now) (filter_tree (option_copied filter))) ≡ true }
    requires table { IsTableOf region.now.about.shape place }
    ensures done { IfOk result.1 (λ reply. DoesSome pass result.0 (λ calls.
        UpdatesWhere region.now.about.shape (commands.table_name place.table) place.coll column.now (expr_tree value.now) (filter_tree (option_copied filter.entry)) calls reply)) }
    ensures home { IsSame pass result.0 × (OwnsNone pass → OwnsNone result.0) }
{
    let table = table_name(catalog, place.table);
    let plan = match plan_edit(alloc, table, column.as_str(), value, filter, catalog) {
        Ok(plan) => plan,
        Err(PlanFault::NoMemory) => return (pass, Err(NoMemory)),
        Err(_) => unreachable!(),
    };
    let (pass, updated) = update_rows(alloc, &plan, pass, region, place.coll);
    match updated {
        Ok(updated) => (pass, updated_line(alloc, updated)),
        Err(fault) => (pass, Err(fault)),
    }
}
