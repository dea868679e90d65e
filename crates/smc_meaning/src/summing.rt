//! Sums and averages of the rows of a group.
ghost use Rattle.std.specs.Prelude.{◌≡◌, ◌<◌, ◌≤◌, ◌+◌, ◌+ℤ◌, ◌^◌, length, unsigned_abs};
ghost use Rattle.smc_plan.specs.Leaves.{leaves_words};
ghost use Rattle.smc_plan.specs.Typed.{typed_tree};
ghost use Rattle.smc_plan.specs.declared.kind.TheConstants.{SIZE_LIMIT};
ghost use Rattle.smc_meaning.specs.Groups.{aggregate_of, divided, nearest_part, scale_in, sum_of, values_of};
ghost use Rattle.smc_meaning.specs.Cells.{column_seen};
ghost use Rattle.smc_query.specs.Trees.{average, total as sum'};
ghost use Rattle.smc_meaning.specs.Summing.{IsSummable};
ghost use Rattle.smc_meaning.specs.declared.rows.TheConstants.{ROWS_MAX};

use crate::decimal::widened;
use crate::value::number_at;
use crate::{Cell, Decimal, Rows};
use smc_plan::{HUNDREDTHS, Kind, Kinded, Leaf, Typed};

// Units and units.
fn together(one: i128, other: i128) -> i128
    requires { unsigned_abs one + unsigned_abs other < 2 ^ 127 }
    ensures { result ≡ one +ℤ other }
{
    one + other
}

/// The units of an expression in all rows together.
pub(crate) fn total(leaves: &[Leaf], of: &Typed, rows: &Rows) -> i128
    requires words { rows.now.width ≡ leaves_words leaves.now }
    requires count { length rows.now.rows ≤ ROWS_MAX }
    requires summable { IsSummable leaves.now (typed_tree of.now) }
    ensures total { result ≡ sum_of (values_of leaves.now (typed_tree of.now) rows.now.rows) }
    ensures small { unsigned_abs result < SIZE_LIMIT }
{
    let mut total = 0;
    for place in 0..rows.len() {
        let number = number_at(leaves, of, rows.get(place));
        total = together(total, number.units);
    }
    total
}

// Units divided into so many parts, rounded to the nearest whole, halves up.
fn nearest_part(units: u128, parts: u128) -> u128
    requires parts { 0 < parts }
    requires few { parts < 2 ^ 64 }
    requires small { units < 2 ^ 120 }
    ensures nearest { result ≡ nearest_part units parts }
    ensures small { result < 2 ^ 122 }
{
    (2 * units + parts) / (2 * parts)
}

/// Units divided by a count, and rounded to the nearest whole one, halves away from zero.
pub(crate) fn divided(units: i128, parts: usize) -> i128
    requires parts { 0 < parts }
    requires small { unsigned_abs units < 2 ^ 120 }
    ensures { result ≡ divided units parts }
{
    let size = nearest_part(units.unsigned_abs(), parts as u128) as i128;
    if units < 0 { -size } else { size }
}

/// How many decimals a number has.
pub(crate) fn scale_in(kind: Kind) -> u32
    ensures { result ≡ scale_in kind }
{
    match kind {
        Kind::Number(number) => number.scale,
        Kind::Day { .. } => 0,
        Kind::Text => 0,
    }
}

/// The sum of an expression in the rows of a group.
pub(crate) fn sum_shown(leaves: &[Leaf], of: &Kinded, rows: &Rows) -> Option<Cell>
    requires words { rows.now.width ≡ leaves_words leaves.now }
    requires count { length rows.now.rows ≤ ROWS_MAX }
    requires summable { IsSummable leaves.now (typed_tree of.now.typed) }
    ensures { column_seen result ≡ aggregate_of sum' (scale_in of.now.kind) (values_of leaves.now (typed_tree of.now.typed) rows.now.rows) }
{
    Some(Cell::Number(Decimal {
        units: total(leaves, &of.typed, rows),
        scale: scale_in(of.kind),
    }))
}

/// The average of an expression in the rows of a group.
pub(crate) fn average_shown(leaves: &[Leaf], of: &Kinded, rows: &Rows) -> Option<Cell>
    requires words { rows.now.width ≡ leaves_words leaves.now }
    requires count { length rows.now.rows ≤ ROWS_MAX }
    requires summable { IsSummable leaves.now (typed_tree of.now.typed) }
    ensures { column_seen result ≡ aggregate_of average (scale_in of.now.kind) (values_of leaves.now (typed_tree of.now.typed) rows.now.rows) }
{
    if rows.len() == 0 {
        return None;
    }
    let scale = scale_in(of.kind);
    let places = scale.max(HUNDREDTHS);
    let units = widened(total(leaves, &of.typed, rows), places - scale);
    Some(Cell::Number(Decimal {
        units: divided(units, rows.len()),
        scale: places,
    }))
}
