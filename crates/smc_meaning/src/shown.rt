//! The value of an expression in a row, as a column shows it.
ghost use Rattle.std.specs.Prelude.{◌≡◌, IfOk, length};
ghost use Rattle.smc_plan.specs.Leaves.{leaves_words};
ghost use Rattle.smc_plan.specs.Typed.{typed_tree};
ghost use Rattle.smc_meaning.specs.Cells.{cell_seen};
ghost use Rattle.smc_meaning.specs.Shown.{IsShowable};
ghost use Rattle.smc_meaning.specs.Values.{value_of};

use crate::value::{day_at, number_at, sort_at, text_at};
use crate::{Cell, Sort};
use smc_plan::{Leaf, Typed};
use smc_words::NoMemory;
use std::alloc::Global;

/// The value of a number or a path in a row. A day is that of a column, and so one of the calendar.
pub(crate) fn shown_at(
    alloc: Global,
    leaves: &[Leaf],
    expr: &Typed,
    row: &[u64],
) -> Result<Cell, NoMemory>
    requires words { length row.now ≡ leaves_words leaves.now }
    requires showable { IsShowable leaves.now (typed_tree expr.now) }
    ensures { IfOk result (λ cell. cell_seen cell ≡ value_of leaves.now (typed_tree expr.now) row.now) }
{
    match sort_at(leaves, expr) {
        Sort::Number => Ok(Cell::Number(number_at(leaves, expr, row))),
        Sort::Day => Ok(Cell::Day(day_at(leaves, expr, row) as i32)),
        Sort::Text => Ok(Cell::Text(text_at(leaves, expr, row).copied(alloc)?)),
    }
}
