//! How values compare.
ghost use Rattle.std.specs.Prelude.{◌≡◌, Ok, length};
ghost use Rattle.smc_plan.specs.Leaves.{leaves_words};
ghost use Rattle.smc_plan.specs.Typed.{typed_tree};
ghost use Rattle.smc_meaning.specs.Comparing.{compare};
ghost use Rattle.smc_plan.specs.Kinds.{AreCompared};
ghost use Rattle.smc_meaning.specs.Kinds.{HasKind};
ghost use Rattle.smc_meaning.specs.Values.{value_of};

use crate::Sort;
use crate::value::{day_at, number_at, sort_at, text_at};
use smc_plan::{Leaf, Typed};
use std::cmp::Ordering;

/// How the values of two expressions compare, the second in a row of its own.
pub(crate) fn compare_at(
    leaves: &[Leaf],
    left: &Typed,
    row: &[u64],
    right: &Typed,
    other_row: &[u64],
) -> Ordering
    requires words { length row.now ≡ leaves_words leaves.now }
    requires other_words { length other_row.now ≡ leaves_words leaves.now }
    requires sides { AreCompared leaves.now (typed_tree left.now) (typed_tree right.now) }
    ensures { result ≡ compare (value_of leaves.now (typed_tree left.now) row.now) (value_of leaves.now (typed_tree right.now) other_row.now) }
{
    match sort_at(leaves, left) {
        Sort::Number => number_at(leaves, left, row).compare(number_at(leaves, right, other_row)),
        Sort::Day => day_at(leaves, left, row).cmp(&day_at(leaves, right, other_row)),
        Sort::Text => text_at(leaves, left, row).compare(text_at(leaves, right, other_row)),
    }
}

/// How the values of an expression compare in two rows.
pub fn compare_rows(leaves: &[Leaf], expr: &Typed, row: &[u64], other_row: &[u64]) -> Ordering
    requires words { length row.now ≡ leaves_words leaves.now }
    requires other_words { length other_row.now ≡ leaves_words leaves.now }
    requires typed { HasKind leaves.now (typed_tree expr.now) }
    ensures { result ≡ compare (value_of leaves.now (typed_tree expr.now) row.now) (value_of leaves.now (typed_tree expr.now) other_row.now) }
{
    compare_at(leaves, expr, row, expr, other_row)
}
