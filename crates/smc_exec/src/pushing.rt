//! Queries without groups and folds: the rows of the objects of a collection go into a kernel as they are read, a batch at a
//! time.
ghost use Rattle.std.specs.Prelude.{◌≡◌, ◌<◌, ◌++◌, ◌∷◌, [], List, ℕ, IfOk, OnOk, length};
ghost use Rattle.std.specs.List.{AllByRecursion};
ghost use Rattle.smc_region.specs.Callers.{IsPassOf, IsSame};
ghost use Rattle.smc_does.specs.Does.{DoesSome, OwnsNone};
ghost use Rattle.smc_objects.specs.Alone.{InSection};
ghost use Rattle.smc_folds.specs.Kinds.{Kind};
ghost use Rattle.smc_plan.specs.Kinds.{IsPlan};
ghost use Rattle.smc_plan.specs.Leaves.{leaves_words};
ghost use Rattle.smc_plan.specs.Planned.{plan_tree};
ghost use Rattle.smc_meaning.specs.Answers.{answer_of};
ghost use Rattle.smc_meaning.specs.Printed.{answer_text};
ghost use Rattle.smc_kernel.specs.Plain.{IsPlain};
ghost use Rattle.smc_kernel.specs.declared.batch.TheConstants.{ROOM};
ghost use Rattle.smc_visits.specs.Rows.{FitsRecord};
ghost use Rattle.smc_exec.specs.Pushed.{HasPushed};
ghost use Rattle.smc_exec.specs.Queries.{AnswersRows};

use crate::buffer::row_buffer;
use smc_kernel::{Batch, Kernel, ROOM};
use smc_plan::Plan;
use smc_region::{Pass, Region};
use smc_visits::{TakeRow, scan_rows};
use smc_words::NoMemory;
use std::alloc::Global;
use std::marker::Model;

// Rows that go into the kernel of a plan. Contracts see the plan, what the kernel knows, and the rows of the batch.
#[derive(Drop)]
struct Pushing<'a> {
    plan: &'a Plan,
    kernel: Kernel,
    // The last rows, which are not in the kernel yet.
    batch: Batch,
}

impl<'a> Model for Pushing<'a> {
    ghost use Rattle.std.specs.Coded.{codes};
    ghost use Rattle.smc_plan.specs.contracts.condition.TypedCond as condition;
    ghost use Rattle.smc_plan.specs.contracts.typed.Typed as typed;
    ghost use Rattle.smc_exec.specs.Pushed.{CanPush, Pushed};

    ghost Value = { Pushed };

    ghost coded = { Prim.hlevel (codes, condition.the_row.coded, typed.the_row.coded) };

    ghost view = { λ pushing. record { plan = pushing.plan.now; kernel = pushing.kernel; batch = pushing.batch } };

    ghost invariant = { λ pushing. CanPush pushing.plan.now pushing.kernel pushing.batch };
}

impl<'a> Pushing<'a> {
    // No rows so far.
    fn new(alloc: Global, plan: &'a Plan) -> Result<Pushing<'a>, NoMemory>
        requires sound { IsPlan plan.now.leaves (plan_tree plan.now) }
        requires plain { IsPlain (plan_tree plan.now) }
        requires one { plan.now.by ≡ [] }
        ensures plan { IfOk result (λ pushing. pushing.plan ≡ plan.now) }
        ensures none { IfOk result (λ pushing. HasPushed pushing []) }
    {
        Ok(Pushing {
            plan,
            kernel: Kernel::new(alloc, plan)?,
            batch: Batch::new(alloc, plan)?,
        })
    }

    // Puts the rows of the batch into the kernel.
    fn push(&mut self) -> Result<(), NoMemory>
        ensures plan { self.new.plan ≡ self.old.plan }
        ensures taken { (rows : List (List ℕ)) → HasPushed self.old rows → OnOk result (HasPushed self.new rows) }
        ensures room { OnOk result (self.new.batch.rows ≡ []) }
    {
        self.kernel.push(self.plan, &self.batch)?;
        self.batch.clear();
        Ok(())
    }

    // Puts the rows of a full batch into the kernel.
    fn make_room(&mut self) -> Result<(), NoMemory>
        ensures plan { self.new.plan ≡ self.old.plan }
        ensures taken { (rows : List (List ℕ)) → HasPushed self.old rows → OnOk result (HasPushed self.new rows) }
        ensures room { OnOk result (length self.new.batch.rows < ROOM) }
    {
        if self.batch.rows() < ROOM {
            return Ok(());
        }
        self.push()
    }

    // The text of the answer over all rows, whatever folds there are.
    fn text(&mut self, alloc: Global) -> Result<Vec<u8>, NoMemory>
        ensures { (rows : List (List ℕ)) (kinds : List Kind) → HasPushed self.old rows
            → IfOk result (λ text. text.items ≡ answer_text (answer_of (plan_tree self.old.plan) kinds rows)) }
    {
        self.push()?;
        let answer = self.kernel.finish(alloc, self.plan)?;
        let text = answer.text(alloc)?;
        Ok(text)
    }
}

impl<'a> TakeRow for Pushing<'a> {
    ghost use Rattle.smc_plan.specs.declared.plan.Plan.{Plan};

    ghost words = { λ pushing. leaves_words pushing.plan.leaves };

    ghost About = { Plan };

    ghost about = { λ pushing. pushing.plan };

    ghost has = { HasPushed };

    fn take(&mut self, row: &[u64]) -> Result<(), NoMemory>
        requires long { length row.now ≡ leaves_words self.old.plan.leaves }
        ensures taken { (rows : List (List ℕ)) → HasPushed self.old rows → OnOk result (HasPushed self.new (rows ++ row.now ∷ [])) }
        ensures words { leaves_words self.new.plan.leaves ≡ leaves_words self.old.plan.leaves }
        ensures about { self.new.plan ≡ self.old.plan }
    {
        self.make_room()?;
        self.batch.add(row);
        Ok(())
    }
}

// Reads the rows, and answers over them.
fn answer_over(
    alloc: Global,
    pushing: &mut Pushing<'_>,
    plan: &Plan,
    row: &mut [u64],
    pass: Pass,
    region: &Region,
    coll: u8,
) -> (Pass, Result<Vec<u8>, NoMemory>)
    requires here { IsPassOf region.now pass }
    requires coll { coll < length pass.shape.colls }
    requires fits { AllByRecursion FitsRecord plan.now.leaves }
    requires long { length row.old ≡ leaves_words plan.now.leaves }
    requires plan { pushing.old.plan ≡ plan.now }
    requires none { HasPushed pushing.old [] }
    ensures done { (kinds : List Kind) → IfOk result.1 (λ text. DoesSome pass result.0
        (InSection (AnswersRows pass.shape coll (plan_tree plan.now) kinds text.items))) }
    ensures home { IsSame pass result.0 }
    ensures free { OwnsNone pass → OwnsNone result.0 }
{
    let (pass, done) = scan_rows(pass, region, coll, plan.leaves(), row, pushing);
    match done {
        Ok(()) => (pass, pushing.text(alloc)),
        Err(fault) => (pass, Err(fault)),
    }
}

/// The text of the answer of a plan without groups and folds, over the rows of the objects of the collection that are whole.
/// They are read in a section of their own. No row takes memory.
///
/// # Errors
/// Memory was refused, or the plan keeps more rows than a query sees. The pass is outside, and no more is said.
pub(crate) fn push_rows(
    alloc: Global,
    plan: &Plan,
    pass: Pass,
    region: &Region,
    coll: u8,
) -> (Pass, Result<Vec<u8>, NoMemory>)
    requires here { IsPassOf region.now pass }
    requires coll { coll < length pass.shape.colls }
    requires fits { AllByRecursion FitsRecord plan.now.leaves }
    requires sound { IsPlan plan.now.leaves (plan_tree plan.now) }
    requires plain { IsPlain (plan_tree plan.now) }
    requires one { plan.now.by ≡ [] }
    ensures done { (kinds : List Kind) → IfOk result.1 (λ text. DoesSome pass result.0
        (InSection (AnswersRows pass.shape coll (plan_tree plan.now) kinds text.items))) }
    ensures home { IsSame pass result.0 }
    ensures free { OwnsNone pass → OwnsNone result.0 }
{
    let mut row = match row_buffer(alloc, plan.words()) {
        Ok(row) => row,
        Err(fault) => return (pass, Err(fault)),
    };
    match Pushing::new(alloc, plan) {
        Ok(mut pushing) => answer_over(alloc, &mut pushing, plan, &mut row, pass, region, coll),
        Err(fault) => (pass, Err(fault)),
    }
}
