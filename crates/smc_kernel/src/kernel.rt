//! What is known of all rows that were pushed, and the answer over them.
ghost use Rattle.std.specs.Prelude.{◌≡◌, ◌++◌, ◌<◌, ◌≤◌, ◌+◌, [], List, ℕ, IfOk, OnErr, OnOk, length, map};
ghost use Rattle.std.specs.List.{AllByRecursion};
ghost use Rattle.smc_folds.specs.Kinds.{Kind};
ghost use Rattle.smc_plan.specs.Kinds.{IsPlan};
ghost use Rattle.smc_plan.specs.Leaves.{leaves_words};
ghost use Rattle.smc_plan.specs.declared.leaf.Leaf.{Leaf};
ghost use Rattle.smc_plan.specs.Planned.{output_trees, plan_tree};
ghost use Rattle.smc_meaning.specs.Answers.{answer_of};
ghost use Rattle.smc_kernel.specs.Plain.{ArePlain, IsPlain};
ghost use Rattle.smc_meaning.specs.Kept.{kept_rows};
ghost use Rattle.smc_meaning.specs.declared.rows.TheConstants.{ROWS_MAX};
ghost use Rattle.smc_kernel.specs.Taken.{AreTotals, FitsTotal, HasTaken, IsReady};

use crate::batch::Batch;
use crate::filter::kept_places;
use crate::showing::group_row;
use crate::total::{Total, take_all};
use smc_meaning::{Answer, ROWS_MAX};
use smc_plan::{Output, Plan};
use smc_words::NoMemory;
use std::alloc::Global;

/// A query without groups, over the rows that were pushed so far.
#[derive(Debug, Drop)]
pub struct Kernel {
    // How many rows were kept.
    pub(crate) kept: usize,
    // Of each output column.
    pub(crate) totals: Vec<Total>,
    // Room for the words of one row.
    pub(crate) row: Vec<u64>,
}

// The totals of these output columns, over no rows.
fn totals_of_none(alloc: Global, items: &[Output], words: u32) -> Result<Vec<Total>, NoMemory>
    requires plain { ArePlain (output_trees items.now) }
    ensures none { (leaves : List Leaf) → IfOk result (λ totals. AreTotals leaves (output_trees items.now) totals.items []) }
    ensures fit { IfOk result (λ totals. AllByRecursion (FitsTotal words 0) totals.items) }
    ensures many { IfOk result (λ totals. length totals.items ≡ length items.now) }
{
    let mut totals = Vec::new(alloc);
    for _item in items {
        totals.push(Total::new(alloc, words)?)?;
    }
    Ok(totals)
}

// Takes the rows of a batch that a plan keeps, behind so many. Answers how many there are.
fn take_batch(
    plan: &Plan,
    batch: &Batch,
    kept: usize,
    totals: &mut [Total],
    row: &mut [u64],
) -> usize
    requires words { batch.now.width ≡ leaves_words plan.now.leaves }
    requires row { length row.old ≡ leaves_words plan.now.leaves }
    requires sound { IsPlan plan.now.leaves (plan_tree plan.now) }
    requires plain { IsPlain (plan_tree plan.now) }
    requires kept { kept ≤ ROWS_MAX }
    requires many { length totals.old ≡ length plan.now.items }
    requires fit { AllByRecursion (FitsTotal (leaves_words plan.now.leaves) kept) totals.old }
    ensures taken { (rows : List (List ℕ)) → kept ≡ length (kept_rows (plan_tree plan.now) rows)
        → AreTotals plan.now.leaves (output_trees plan.now.items) totals.old (kept_rows (plan_tree plan.now) rows)
        → AreTotals plan.now.leaves (output_trees plan.now.items) totals.new (kept_rows (plan_tree plan.now) (rows ++ batch.now.rows)) }
    ensures count { result ≡ length (kept_rows (plan_tree plan.now) batch.now.rows) }
    ensures few { result ≤ length batch.now.rows }
    ensures fit { AllByRecursion (FitsTotal (leaves_words plan.now.leaves) (kept + result)) totals.new }
    ensures many { length totals.new ≡ length totals.old }
    ensures row { length row.new ≡ length row.old }
{
    let chosen = kept_places(plan, batch, row);
    let places = chosen.as_slice();
    take_all(
        plan.leaves(),
        plan.items.as_slice(),
        totals,
        kept,
        batch,
        places,
        row,
    );
    places.len()
}

impl Kernel {
    /// A query of which no row was pushed.
    pub fn new(alloc: Global, plan: &Plan) -> Result<Kernel, NoMemory>
        requires plain { IsPlain (plan_tree plan.now) }
        ensures taken { IfOk result (HasTaken (plan_tree plan.now) []) }
        ensures ready { IfOk result (IsReady (plan_tree plan.now)) }
    {
        let words = plan.words();
        Ok(Kernel {
            kept: 0,
            totals: totals_of_none(alloc, plan.items.as_slice(), words)?,
            row: vec![in alloc; 0; words as usize]?,
        })
    }

    /// Takes the rows of a batch behind those before. It takes no memory, and is `Ok` while at most 2^28 rows are kept.
    pub fn push(&mut self, plan: &Plan, batch: &Batch) -> Result<(), NoMemory>
        requires words { batch.now.width ≡ leaves_words plan.now.leaves }
        requires sound { IsPlan plan.now.leaves (plan_tree plan.now) }
        requires plain { IsPlain (plan_tree plan.now) }
        requires ready { IsReady (plan_tree plan.now) self.old }
        ensures taken { (rows : List (List ℕ)) → HasTaken (plan_tree plan.now) rows self.old
            → OnOk result (HasTaken (plan_tree plan.now) (rows ++ batch.now.rows) self.new) }
        ensures ready { IsReady (plan_tree plan.now) self.new }
        ensures limit { OnErr result (ROWS_MAX < self.old.kept + length batch.now.rows) }
    {
        if batch.rows() > ROWS_MAX - self.kept {
            return Err(NoMemory);
        }
        self.kept += take_batch(plan, batch, self.kept, &mut self.totals, &mut self.row);
        Ok(())
    }

    /// The answer over all rows that were pushed, whatever folds there are.
    pub fn finish(&self, alloc: Global, plan: &Plan) -> Result<Answer, NoMemory>
        requires sound { IsPlan plan.now.leaves (plan_tree plan.now) }
        requires plain { IsPlain (plan_tree plan.now) }
        requires one { plan.now.by ≡ [] }
        requires ready { IsReady (plan_tree plan.now) self.now }
        ensures { (rows : List (List ℕ)) (kinds : List Kind) → HasTaken (plan_tree plan.now) rows self.now
            → IfOk result (λ answer. answer ≡ answer_of (plan_tree plan.now) kinds rows) }
    {
        let mut rows = Vec::new(alloc);
        rows.push(group_row(alloc, plan, &self.totals, self.kept)?)?;
        Ok(Answer::ordered(plan.sort.as_slice(), plan.first, rows))
    }
}
