//! The least and the greatest value of the rows of a group.
ghost use Rattle.std.specs.Prelude.{◌≡◌, IfOk, IfSome, length};
ghost use Rattle.smc_plan.specs.Leaves.{leaves_words};
ghost use Rattle.smc_plan.specs.Typed.{typed_tree};
ghost use Rattle.smc_meaning.specs.Groups.{choice_of, chosen_of, values_of};
ghost use Rattle.smc_meaning.specs.Kinds.{HasKind};
ghost use Rattle.smc_meaning.specs.Nearer.{better, is_nearer, value_in};
ghost use Rattle.smc_meaning.specs.Cells.{column_seen};
ghost use Rattle.smc_meaning.specs.Shown.{IsShowable};
ghost use Rattle.smc_meaning.specs.Values.{value_of};

use crate::comparing::compare_rows;
use crate::shown::shown_at;
use crate::{Cell, Rows};
use smc_plan::{Leaf, Typed};
use smc_words::NoMemory;
use std::alloc::Global;
use std::cmp::Ordering;

/// An end of the order of values.
#[derive(Clone, Copy, Debug)]
pub enum End {
    Least,
    Greatest,
}

// Whether a value that compares so with the best so far is better.
fn is_nearer(end: End, order: Ordering) -> bool
    ensures { result ≡ is_nearer end order }
{
    match end {
        End::Least => order.is_lt(),
        End::Greatest => order.is_gt(),
    }
}

// The row of the better value: that of the best so far, or this one.
fn better_row<'a>(
    leaves: &[Leaf],
    of: &Typed,
    end: End,
    best: Option<&'a [u64]>,
    row: &'a [u64],
) -> &'a [u64]
    requires best { IfSome best (λ words. length words.now ≡ leaves_words leaves.now) }
    requires row { length row.now ≡ leaves_words leaves.now }
    requires typed { HasKind leaves.now (typed_tree of.now) }
    ensures value { value_of leaves.now (typed_tree of.now) result.now
        ≡ better (choice_of end) (value_in leaves.now (typed_tree of.now) best.entry) (value_of leaves.now (typed_tree of.now) row.now) }
    ensures words { length result.now ≡ leaves_words leaves.now }
{
    match best {
        None => row,
        Some(best) => {
            if is_nearer(end, compare_rows(leaves, of, row, best)) {
                row
            } else {
                best
            }
        }
    }
}

// The row of the value at an end of the order, where there are rows.
fn end_row<'a>(leaves: &[Leaf], of: &Typed, end: End, rows: &'a Rows) -> Option<&'a [u64]>
    requires words { rows.now.width ≡ leaves_words leaves.now }
    requires typed { HasKind leaves.now (typed_tree of.now) }
    ensures value { value_in leaves.now (typed_tree of.now) result
        ≡ chosen_of (choice_of end) (values_of leaves.now (typed_tree of.now) rows.now.rows) }
    ensures words { IfSome result (λ words. length words.now ≡ leaves_words leaves.now) }
{
    let mut best = None;
    for place in 0..rows.len() {
        let row = better_row(leaves, of, end, best, rows.get(place));
        best = Some(row);
    }
    best
}

/// The value at an end of the order of those of an expression in the rows of a group.
pub(crate) fn end_shown(
    alloc: Global,
    leaves: &[Leaf],
    of: &Typed,
    end: End,
    rows: &Rows,
) -> Result<Option<Cell>, NoMemory>
    requires words { rows.now.width ≡ leaves_words leaves.now }
    requires showable { IsShowable leaves.now (typed_tree of.now) }
    ensures { IfOk result (λ shown. column_seen shown ≡ chosen_of (choice_of end) (values_of leaves.now (typed_tree of.now) rows.now.rows)) }
{
    match end_row(leaves, of, end, rows) {
        None => Ok(None),
        Some(row) => Ok(Some(shown_at(alloc, leaves, of, row)?)),
    }
}
