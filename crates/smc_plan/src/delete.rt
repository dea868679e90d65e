//! Deletes: which rows of a table meet a condition.
ghost use Rattle.std.specs.Prelude.{◌≡◌, ◌⊎◌, [], Ok, Err, IfOk, IfErr};
ghost use Rattle.smc_query.specs.Trees.{cond_tree};
ghost use Rattle.smc_plan.specs.Deletes.{delete_query};
ghost use Rattle.smc_plan.specs.Planned.{plan_tree, planned};
ghost use Rattle.smc_plan.specs.declared.fault.PlanFault.TheVariants.{NoMemory};

use crate::query::planned_filter;
use crate::table::table_named;
use crate::{Leaves, OrderKeys, Output, Outputs, Places, Plan, PlanFault};
use smc_query::Cond;
use smc_types::Catalog;
use std::alloc::Global;

/// The plan of the query that counts what a delete removes: the rows of that table that meet the condition.
pub fn plan_delete(
    alloc: Global,
    table: &str,
    cond: &Cond,
    catalog: &Catalog,
) -> Result<Plan, PlanFault>
    ensures done { IfOk result (λ plan.
        planned catalog.now [] (delete_query table.now (cond_tree cond.now)) ≡ Ok (plan_tree plan)) }
    ensures fault { IfErr result (λ fault. (fault ≡ NoMemory)
        ⊎ (planned catalog.now [] (delete_query table.now (cond_tree cond.now)) ≡ Err fault)) }
{
    let Some(table) = table_named(catalog, table) else {
        return Err(PlanFault::NoTable);
    };
    let mut leaves = Leaves::new(alloc);
    let filter = planned_filter(alloc, catalog, table, &mut leaves, Some(cond))?;
    let items = vec![in alloc; Output::Count]?;
    Ok(Plan {
        leaves,
        filter,
        by: Places::of(Vec::new(alloc)),
        items: Outputs::of(items),
        sort: OrderKeys::of(Vec::new(alloc)),
        first: None,
    })
}
