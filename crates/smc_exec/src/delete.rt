//! Deletes: the objects whose rows a plan keeps are removed.
ghost use Rattle.std.specs.Prelude.{◌≡◌, ◌<◌, ◌≤◌, IfOk, IfSome, OnErr, length};
ghost use Rattle.std.specs.List.{AllByRecursion};
ghost use Rattle.smc_region.specs.Callers.{IsPassOf, IsSame};
ghost use Rattle.smc_does.specs.Does.{DoesSome};
ghost use Rattle.smc_objects.specs.Alone.{InSection};
ghost use Rattle.smc_plan.specs.Leaves.{leaves_words};
ghost use Rattle.smc_plan.specs.Planned.{filter_condition, plan_tree};
ghost use Rattle.smc_plan.specs.Kinds.{IsTyped};
ghost use Rattle.smc_visits.specs.Edits.{FitsEdit};
ghost use Rattle.smc_visits.specs.Rows.{FitsRecord};
ghost use Rattle.smc_exec.specs.Deletes.{DeletesRows, deletes};
ghost use Rattle.smc_exec.specs.Plans.{IsPlanned};

use crate::buffer::row_buffer;
use crate::laws::queries_can_run;
use smc_filter::Filter;
use smc_plan::Plan;
use smc_region::{Pass, Region};
use smc_visits::{DecideEdit, Edit, edit_rows};
use smc_words::NoMemory;
use std::alloc::Global;
use std::marker::Model;

// Removes the objects whose rows this plan keeps. Contracts see the plan.
#[derive(Drop)]
struct Deleting<'a> {
    plan: &'a Plan,
    filter: Filter<'a>,
}

impl<'a> Model for Deleting<'a> {
    ghost use Rattle.std.specs.Coded.{codes};
    ghost use Rattle.smc_plan.specs.contracts.condition.TypedCond as condition;
    ghost use Rattle.smc_plan.specs.contracts.typed.Typed as typed;
    ghost use Rattle.smc_plan.specs.declared.plan.Plan.{Plan};
    ghost use Rattle.smc_exec.specs.Deletes.{IsFilterOf};

    ghost Value = { Plan };

    ghost coded = { Prim.hlevel (codes, condition.the_row.coded, typed.the_row.coded) };

    ghost view = { λ deleting. deleting.plan.now };

    ghost invariant = { λ deleting. IsFilterOf deleting.plan.now deleting.filter };
}

impl<'a> DecideEdit for Deleting<'a> {
    ghost words = { λ plan. leaves_words plan.leaves };

    ghost width = { λ plan. 0 };

    ghost edit = { λ plan. deletes (plan_tree plan) };

    fn decide(&self, row: &[u64]) -> Edit
        requires long { length row.now ≡ leaves_words self.now.leaves }
        ensures edit { result ≡ deletes (plan_tree self.now) row.now }
        ensures fits { FitsEdit 0 result }
    {
        if self.filter.keeps(row) {
            Edit::Remove
        } else {
            Edit::Leave
        }
    }
}

// Removes them, where what the plan asks of rows is known.
fn delete_typed(
    alloc: Global,
    plan: &Plan,
    row: &mut [u64],
    pass: Pass,
    region: &Region,
    coll: u8,
) -> (Pass, Result<u64, NoMemory>)
    requires here { IsPassOf region.now pass }
    requires coll { coll < length pass.shape.colls }
    requires fits { AllByRecursion FitsRecord plan.now.leaves }
    requires typed { IfSome (filter_condition plan.now.filter) (IsTyped plan.now.leaves) }
    requires long { length row.old ≡ leaves_words plan.now.leaves }
    ensures done { IfOk result.1 (λ removed. DoesSome pass result.0 (InSection (DeletesRows pass.shape coll (plan_tree plan.now) removed))) }
    ensures kept { OnErr result.1 (result.0 ≡ pass) }
    ensures home { IsSame pass result.0 }
{
    let filter = match Filter::of(alloc, plan.leaves(), &plan.filter) {
        Ok(filter) => filter,
        Err(fault) => return (pass, Err(fault)),
    };
    let deleting = Deleting { plan, filter };
    let (pass, edits) = edit_rows(pass, region, coll, plan.leaves(), row, &deleting);
    (pass, Ok(edits.removed))
}

/// Removes each object of the collection whose row the plan keeps, in a section of its own. Answers how many removals were
/// the first of their object.
///
/// # Errors
/// Memory was refused. Then nothing was done.
pub fn delete_rows(
    alloc: Global,
    plan: &Plan,
    pass: Pass,
    region: &Region,
    coll: u8,
) -> (Pass, Result<u64, NoMemory>)
    requires here { IsPassOf region.now pass }
    requires coll { coll < length pass.shape.colls }
    requires planned { IsPlanned (plan_tree plan.now) }
    ensures done { IfOk result.1 (λ removed. DoesSome pass result.0 (InSection (DeletesRows pass.shape coll (plan_tree plan.now) removed))) }
    ensures kept { OnErr result.1 (result.0 ≡ pass) }
    ensures home { IsSame pass result.0 }
{
    queries_can_run();
    let mut row = match row_buffer(alloc, plan.words()) {
        Ok(row) => row,
        Err(fault) => return (pass, Err(fault)),
    };
    delete_typed(alloc, plan, &mut row, pass, region, coll)
}
