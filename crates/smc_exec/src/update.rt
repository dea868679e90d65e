//! Updates: a word is written into a field of the objects whose rows meet a condition.
ghost use Rattle.std.specs.Prelude.{◌≡◌, ◌<◌, IfOk, OnErr, length};
ghost use Rattle.std.specs.List.{AllByRecursion};
ghost use Rattle.smc_shape.specs.Layout.{width_of};
ghost use Rattle.smc_region.specs.Callers.{IsPassOf, IsSame};
ghost use Rattle.smc_does.specs.Does.{DoesSome};
ghost use Rattle.smc_objects.specs.Alone.{InSection};
ghost use Rattle.smc_plan.specs.Edits.{edit_tree};
ghost use Rattle.smc_plan.specs.Kinds.{IsEdit};
ghost use Rattle.smc_plan.specs.Leaves.{leaves_words};
ghost use Rattle.smc_visits.specs.Edits.{FitsEdit};
ghost use Rattle.smc_visits.specs.Rows.{FitsRecord};
ghost use Rattle.smc_exec.specs.Plans.{IsPlannedEdit};
ghost use Rattle.smc_exec.specs.Updates.{UpdatesRows, updates};

use crate::buffer::row_buffer;
use crate::laws::edits_can_run;
use smc_meaning::{Edited, edit};
use smc_plan::EditPlan;
use smc_region::{Pass, Region};
use smc_visits::{DecideEdit, Edit, edit_rows};
use smc_words::NoMemory;
use std::alloc::Global;
use std::marker::Model;

/// How many objects an update came to whose rows meet its condition.
#[derive(Clone, Copy, Debug, PartialEq, Eq)]
pub struct Updated {
    /// Those whose field was written.
    pub written: u64,
    /// Those that were passed over, since the value is outside the range of the column.
    pub skipped: u64,
}

// Writes the value of this plan where a row meets its condition. Contracts see the plan.
#[derive(Drop)]
struct Updating<'a> {
    plan: &'a EditPlan,
}

impl<'a> Model for Updating<'a> {
    ghost use Rattle.std.specs.Coded.{codes};
    ghost use Rattle.smc_plan.specs.contracts.condition.TypedCond as condition;
    ghost use Rattle.smc_plan.specs.contracts.typed.Typed as typed;
    ghost use Rattle.smc_plan.specs.declared.edit.EditPlan.{EditPlan};
    ghost use Rattle.smc_plan.specs.Edits.{edit_tree};
    ghost use Rattle.smc_plan.specs.Kinds.{IsEdit};

    ghost Value = { EditPlan };

    ghost coded = { Prim.hlevel (codes, condition.the_row.coded, typed.the_row.coded) };

    ghost view = { λ updating. updating.plan.now };

    ghost invariant = { λ updating. IsEdit updating.plan.now.leaves (edit_tree updating.plan.now) };
}

impl<'a> DecideEdit for Updating<'a> {
    ghost use Rattle.std.specs.Prelude.{◌+◌};

    ghost words = { λ plan. leaves_words plan.leaves };

    ghost width = { λ plan. plan.field.at + 1 };

    ghost edit = { λ plan. updates (edit_tree plan) };

    fn decide(&self, row: &[u64]) -> Edit
        requires long { length row.now ≡ leaves_words self.now.leaves }
        ensures edit { result ≡ updates (edit_tree self.now) row.now }
        ensures fits { FitsEdit (self.now.field.at + 1) result }
    {
        match edit(self.plan, row) {
            Edited::Unmet => Edit::Leave,
            Edited::Outside => Edit::Skip,
            Edited::Word(value) => Edit::Write {
                field: self.plan.field_at(),
                value,
            },
        }
    }
}

// Updates them, where what the plan asks of rows is known.
fn update_typed(
    plan: &EditPlan,
    row: &mut [u64],
    pass: Pass,
    region: &Region,
    coll: u8,
) -> (Pass, Updated)
    requires here { IsPassOf region.now pass }
    requires coll { coll < length pass.shape.colls }
    requires field { plan.now.field.at < width_of pass.shape coll }
    requires fits { AllByRecursion FitsRecord plan.now.leaves }
    requires typed { IsEdit plan.now.leaves (edit_tree plan.now) }
    requires long { length row.old ≡ leaves_words plan.now.leaves }
    ensures done { DoesSome pass result.0 (InSection (UpdatesRows pass.shape coll (edit_tree plan.now) result.1)) }
    ensures home { IsSame pass result.0 }
{
    let updating = Updating { plan };
    let (pass, edits) = edit_rows(pass, region, coll, plan.leaves(), row, &updating);
    let updated = Updated {
        written: edits.written,
        skipped: edits.skipped,
    };
    (pass, updated)
}

/// Writes the value of the plan into its field of each object of the collection whose row meets its condition, in a section
/// of its own; an object is passed over where the value is outside the range of the column. Answers how many objects were
/// written, and how many were passed over.
///
/// # Errors
/// Memory was refused for one row. Then nothing was done.
pub fn update_rows(
    alloc: Global,
    plan: &EditPlan,
    pass: Pass,
    region: &Region,
    coll: u8,
) -> (Pass, Result<Updated, NoMemory>)
    requires here { IsPassOf region.now pass }
    requires coll { coll < length pass.shape.colls }
    requires records { width_of pass.shape coll ≡ plan.now.field.width }
    requires planned { IsPlannedEdit (edit_tree plan.now) }
    ensures done { IfOk result.1 (λ updated. DoesSome pass result.0 (InSection (UpdatesRows pass.shape coll (edit_tree plan.now) updated))) }
    ensures kept { OnErr result.1 (result.0 ≡ pass) }
    ensures home { IsSame pass result.0 }
{
    edits_can_run();
    let mut row = match row_buffer(alloc, plan.words()) {
        Ok(row) => row,
        Err(fault) => return (pass, Err(fault)),
    };
    let (pass, updated) = update_typed(plan, &mut row, pass, region, coll);
    (pass, Ok(updated))
}
