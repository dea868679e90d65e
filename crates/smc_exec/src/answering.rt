//! Queries: the text of an answer over the rows of a collection.
ghost use Rattle.std.specs.Prelude.{◌≡◌, ◌<◌, ◌≤◌, IfOk, length, map};
ghost use Rattle.smc_region.specs.Callers.{IsPassOf, IsSame};
ghost use Rattle.smc_does.specs.Does.{DoesSome, OwnsNone};
ghost use Rattle.smc_objects.specs.Alone.{InSection};
ghost use Rattle.smc_plan.specs.Kinds.{IsPlan};
ghost use Rattle.smc_plan.specs.Leaves.{leaves_words};
ghost use Rattle.smc_plan.specs.Planned.{plan_tree};
ghost use Rattle.smc_meaning.specs.Answers.{answer_of};
ghost use Rattle.smc_meaning.specs.Printed.{answer_text};
ghost use Rattle.smc_meaning.specs.declared.rows.TheConstants.{ROWS_MAX};
ghost use Rattle.smc_exec.specs.Plans.{IsPlanned};
ghost use Rattle.smc_exec.specs.Queries.{AnswersRows};

use crate::laws::queries_can_run;
use crate::pushing::push_rows;
use crate::query::kept_rows;
use smc_folds::{Bench, Fold};
use smc_kernel::is_plain;
use smc_meaning::{Rows, slow};
use smc_plan::Plan;
use smc_region::{Pass, Region};
use smc_words::NoMemory;
use std::alloc::Global;

// The text of the answer of a plan.
fn answer_text(
    alloc: Global,
    plan: &Plan,
    bench: &mut Bench,
    rows: &Rows,
) -> Result<Vec<u8>, NoMemory>
    requires words { rows.now.width ≡ leaves_words plan.now.leaves }
    requires count { length rows.now.rows ≤ ROWS_MAX }
    requires sound { IsPlan plan.now.leaves (plan_tree plan.now) }
    ensures text { IfOk result (λ text. text.items
        ≡ answer_text (answer_of (plan_tree plan.now) (map (λ b. (⟦<dyn Fold as Fold>⟧ b.fold.vtable).kind b.fold.value) bench.old.boxes.items) rows.now.rows)) }
    ensures kept { map (λ b. (⟦<dyn Fold as Fold>⟧ b.fold.vtable).kind b.fold.value) bench.new.boxes.items
        ≡ map (λ b. (⟦<dyn Fold as Fold>⟧ b.fold.vtable).kind b.fold.value) bench.old.boxes.items }
{
    let answer = slow(alloc, plan, bench, rows)?;
    let text = answer.text(alloc)?;
    Ok(text)
}

/// The text of the answer of a plan, whose folds are those of the bench, over the rows of the objects of the collection that
/// are whole. They are read in a section of their own.
///
/// # Errors
/// Memory was refused, or there are more rows than a query sees. The pass is outside, and no more is said.
pub fn answer(
    alloc: Global,
    plan: &Plan,
    bench: &mut Bench,
    pass: Pass,
    region: &Region,
    coll: u8,
) -> (Pass, Result<Vec<u8>, NoMemory>)
    requires here { IsPassOf region.now pass }
    requires coll { coll < length pass.shape.colls }
    requires planned { IsPlanned (plan_tree plan.now) }
    ensures done { IfOk result.1 (λ text. DoesSome pass result.0
        (InSection (AnswersRows pass.shape coll (plan_tree plan.now) (map (λ b. (⟦<dyn Fold as Fold>⟧ b.fold.vtable).kind b.fold.value) bench.old.boxes.items) text.items))) }
    ensures kept { map (λ b. (⟦<dyn Fold as Fold>⟧ b.fold.vtable).kind b.fold.value) bench.new.boxes.items
        ≡ map (λ b. (⟦<dyn Fold as Fold>⟧ b.fold.vtable).kind b.fold.value) bench.old.boxes.items }
    ensures home { IsSame pass result.0 }
    ensures free { OwnsNone pass → OwnsNone result.0 }
{
    queries_can_run();
    if plan.by.as_slice().is_empty() && is_plain(plan) {
        return push_rows(alloc, plan, pass, region, coll);
    }
    let (pass, rows) = kept_rows(alloc, plan, pass, region, coll);
    match rows {
        Ok(rows) => (pass, answer_text(alloc, plan, bench, &rows)),
        Err(fault) => (pass, Err(fault)),
    }
}
