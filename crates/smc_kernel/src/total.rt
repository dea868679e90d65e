//! The running total of an output column, over the rows at chosen places of a batch.
ghost use Rattle.std.specs.Prelude.{◌≡◌, ◌<◌, ◌≤◌, ◌+◌, ◌-◌, ◌*◌, ◌^◌, ◌+ℤ◌, ◌++◌, [], true, List, ℕ, IfOk, length, unsigned_abs, if◌then◌else◌};
ghost use Rattle.std.specs.List.{AllByRecursion};
ghost use Rattle.smc_plan.specs.Kinds.{IsOutput};
ghost use Rattle.smc_plan.specs.Leaves.{leaves_words};
ghost use Rattle.smc_plan.specs.Outputs.{OutputTree, output_tree};
ghost use Rattle.smc_plan.specs.Planned.{output_trees};
ghost use Rattle.smc_plan.specs.Typed.{typed_tree};
ghost use Rattle.smc_plan.specs.declared.kind.TheConstants.{SUM_LIMIT};
ghost use Rattle.smc_kernel.specs.Plain.{ArePlain, is_plain};
ghost use Rattle.smc_meaning.specs.Comparing.{compare};
ghost use Rattle.smc_meaning.specs.Groups.{choice_of, chosen_of, sum_of, values_of};
ghost use Rattle.smc_meaning.specs.Kinds.{HasKind};
ghost use Rattle.smc_meaning.specs.Nearer.{is_nearer};
ghost use Rattle.smc_meaning.specs.Summing.{IsSummable};
ghost use Rattle.smc_meaning.specs.Values.{value_of};
ghost use Rattle.smc_meaning.specs.declared.rows.TheConstants.{ROWS_MAX};
ghost use Rattle.smc_kernel.specs.Batches.{ArePlaces, rows_at};
ghost use Rattle.smc_kernel.specs.Taken.{AreTotals, FitsTotal, IsTotal, end_found};

use crate::batch::Batch;
use crate::column::column_at;
use crate::units::total_of;
use smc_meaning::{End, compare_rows, number_at};
use smc_plan::{Kinded, Leaf, Output, Typed};
use smc_words::NoMemory;
use std::alloc::Global;
use std::cmp::Ordering;

/// What an output column knows of the rows so far: the units of their values together, and the words of a row that has the
/// value at an end of their order, where there are rows. A column uses one of the two, or none.
#[derive(Debug, Drop)]
pub struct Total {
    pub(crate) sum: i128,
    pub(crate) best: Vec<u64>,
}

// Units and units.
fn together(one: i128, other: i128) -> i128
    requires { unsigned_abs one + unsigned_abs other < 2 ^ 127 }
    ensures { result ≡ one +ℤ other }
{
    one + other
}

// The units of an expression in the rows at these places together, row by row.
fn sum_rows(leaves: &[Leaf], of: &Typed, batch: &Batch, places: &[u8], row: &mut [u64]) -> i128
    requires words { batch.now.width ≡ leaves_words leaves.now }
    requires row { length row.old ≡ leaves_words leaves.now }
    requires places { ArePlaces batch.now.rows places.now }
    requires summable { IsSummable leaves.now (typed_tree of.now) }
    ensures total { result ≡ sum_of (values_of leaves.now (typed_tree of.now) (rows_at batch.now.rows places.now)) }
    ensures small { unsigned_abs result ≤ length places.now * (SUM_LIMIT - 1) }
    ensures row { length row.new ≡ length row.old }
{
    let mut total = 0;
    for place in places {
        batch.read_row(usize::from(*place), row);
        let number = number_at(leaves, of, row);
        total = together(total, number.units);
    }
    total
}

// The same: column by column where all that is reckoned fits 64 bits, and else row by row.
fn sum_at(leaves: &[Leaf], of: &Typed, batch: &Batch, places: &[u8], row: &mut [u64]) -> i128
    requires words { batch.now.width ≡ leaves_words leaves.now }
    requires row { length row.old ≡ leaves_words leaves.now }
    requires places { ArePlaces batch.now.rows places.now }
    requires summable { IsSummable leaves.now (typed_tree of.now) }
    ensures total { result ≡ sum_of (values_of leaves.now (typed_tree of.now) (rows_at batch.now.rows places.now)) }
    ensures small { unsigned_abs result ≤ length places.now * (SUM_LIMIT - 1) }
    ensures row { length row.new ≡ length row.old }
{
    match column_at(leaves, of, batch, places) {
        Some(column) => total_of(column.units.as_slice()),
        None => sum_rows(leaves, of, batch, places, row),
    }
}

// Whether a value that compares so with the best so far is better.
fn is_nearer(end: End, order: Ordering) -> bool
    ensures { result ≡ is_nearer end order }
{
    match end {
        End::Least => order.is_lt(),
        End::Greatest => order.is_gt(),
    }
}

// Takes a row in place of the best so far, where its value is better or where it is the first.
fn take_better(leaves: &[Leaf], of: &Typed, end: End, first: bool, row: &[u64], best: &mut [u64])
    requires row { length row.now ≡ leaves_words leaves.now }
    requires best { length best.old ≡ leaves_words leaves.now }
    requires typed { HasKind leaves.now (typed_tree of.now) }
    ensures best { best.new ≡ (if first then row.now else if is_nearer end (compare (value_of leaves.now (typed_tree of.now) row.now) (value_of leaves.now (typed_tree of.now) best.old))
        then row.now else best.old) }
    ensures long { length best.new ≡ length best.old }
{
    if first || is_nearer(end, compare_rows(leaves, of, row, best)) {
        best.copy_from_slice(row);
    }
}

// Finds the value at an end of the order, row by row.
fn take_ends(
    leaves: &[Leaf],
    of: &Typed,
    end: End,
    kept: usize,
    batch: &Batch,
    places: &[u8],
    row: &mut [u64],
    best: &mut [u64],
)
    requires words { batch.now.width ≡ leaves_words leaves.now }
    requires row { length row.old ≡ leaves_words leaves.now }
    requires best { length best.old ≡ leaves_words leaves.now }
    requires places { ArePlaces batch.now.rows places.now }
    requires kept { kept ≤ ROWS_MAX }
    requires typed { HasKind leaves.now (typed_tree of.now) }
    ensures found { (rows : List (List ℕ)) → end_found leaves.now (typed_tree of.now) kept best.old ≡ chosen_of (choice_of end) (values_of leaves.now (typed_tree of.now) rows)
        → end_found leaves.now (typed_tree of.now) (kept + length places.now) best.new
        ≡ chosen_of (choice_of end) (values_of leaves.now (typed_tree of.now) (rows ++ rows_at batch.now.rows places.now)) }
    ensures best { length best.new ≡ length best.old }
    ensures row { length row.new ≡ length row.old }
{
    for i in 0..places.len() {
        batch.read_row(usize::from(places[i]), row);
        take_better(leaves, of, end, kept + i == 0, row, best);
    }
}

impl Total {
    /// The total of no rows, of a plan whose rows have so many words.
    pub(crate) fn new(alloc: Global, words: u32) -> Result<Total, NoMemory>
        ensures none { (leaves : List Leaf) (item : OutputTree) → is_plain item ≡ true → IfOk result (λ total. IsTotal leaves item total []) }
        ensures fits { IfOk result (FitsTotal words 0) }
    {
        Ok(Total {
            sum: 0,
            best: vec![in alloc; 0; words as usize]?,
        })
    }

    // Adds the units of an expression in the rows at these places.
    fn add(
        &mut self,
        leaves: &[Leaf],
        of: &Kinded,
        kept: usize,
        batch: &Batch,
        places: &[u8],
        row: &mut [u64],
    )
        requires words { batch.now.width ≡ leaves_words leaves.now }
        requires row { length row.old ≡ leaves_words leaves.now }
        requires places { ArePlaces batch.now.rows places.now }
        requires kept { kept ≤ ROWS_MAX }
        requires fits { FitsTotal (leaves_words leaves.now) kept self.old }
        requires summable { IsSummable leaves.now (typed_tree of.now.typed) }
        ensures total { (rows : List (List ℕ)) → self.old.sum ≡ sum_of (values_of leaves.now (typed_tree of.now.typed) rows)
            → self.new.sum ≡ sum_of (values_of leaves.now (typed_tree of.now.typed) (rows ++ rows_at batch.now.rows places.now)) }
        ensures fits { FitsTotal (leaves_words leaves.now) (kept + length places.now) self.new }
        ensures row { length row.new ≡ length row.old }
    {
        let more = sum_at(leaves, &of.typed, batch, places, row);
        self.sum = together(self.sum, more);
    }

    /// Takes the rows at these places, behind so many that were kept before.
    pub(crate) fn take(
        &mut self,
        leaves: &[Leaf],
        item: &Output,
        kept: usize,
        batch: &Batch,
        places: &[u8],
        row: &mut [u64],
    )
        requires words { batch.now.width ≡ leaves_words leaves.now }
        requires row { length row.old ≡ leaves_words leaves.now }
        requires places { ArePlaces batch.now.rows places.now }
        requires kept { kept ≤ ROWS_MAX }
        requires fits { FitsTotal (leaves_words leaves.now) kept self.old }
        requires output { IsOutput leaves.now (output_tree item.now) }
        requires plain { is_plain (output_tree item.now) ≡ true }
        ensures taken { (rows : List (List ℕ)) → kept ≡ length rows → IsTotal leaves.now (output_tree item.now) self.old rows
            → IsTotal leaves.now (output_tree item.now) self.new (rows ++ rows_at batch.now.rows places.now) }
        ensures fits { FitsTotal (leaves_words leaves.now) (kept + length places.now) self.new }
        ensures row { length row.new ≡ length row.old }
    {
        match item {
            Output::Count => {}
            Output::Sum(of) => self.add(leaves, of, kept, batch, places, row),
            Output::Avg(of) => self.add(leaves, of, kept, batch, places, row),
            Output::Min(of) => take_ends(
                leaves,
                &of.typed,
                End::Least,
                kept,
                batch,
                places,
                row,
                &mut self.best,
            ),
            Output::Max(of) => take_ends(
                leaves,
                &of.typed,
                End::Greatest,
                kept,
                batch,
                places,
                row,
                &mut self.best,
            ),
            Output::Fold { .. } => unreachable!(),
        }
    }
}

/// Takes the rows at these places into the totals of all output columns.
pub(crate) fn take_all(
    leaves: &[Leaf],
    items: &[Output],
    totals: &mut [Total],
    kept: usize,
    batch: &Batch,
    places: &[u8],
    row: &mut [u64],
)
    requires words { batch.now.width ≡ leaves_words leaves.now }
    requires row { length row.old ≡ leaves_words leaves.now }
    requires places { ArePlaces batch.now.rows places.now }
    requires kept { kept ≤ ROWS_MAX }
    requires many { length totals.old ≡ length items.now }
    requires fit { AllByRecursion (FitsTotal (leaves_words leaves.now) kept) totals.old }
    requires items { AllByRecursion (IsOutput leaves.now) (output_trees items.now) }
    requires plain { ArePlain (output_trees items.now) }
    ensures taken { (rows : List (List ℕ)) → kept ≡ length rows → AreTotals leaves.now (output_trees items.now) totals.old rows
        → AreTotals leaves.now (output_trees items.now) totals.new (rows ++ rows_at batch.now.rows places.now) }
    ensures fit { AllByRecursion (FitsTotal (leaves_words leaves.now) (kept + length places.now)) totals.new }
    ensures many { length totals.new ≡ length totals.old }
    ensures row { length row.new ≡ length row.old }
{
    if let (Some((item, more_items)), Some((total, more_totals))) = (
        items.split_first(),
        totals.split_first_mut(),
    ) {
        total.take(leaves, item, kept, batch, places, row);
        take_all(leaves, more_items, more_totals, kept, batch, places, row);
    }
}
