//! The value of an expression in a row.
ghost use Rattle.std.specs.Prelude.{◌≡◌, ◌<◌, length, unsigned_abs};
ghost use Rattle.smc_plan.specs.Leaves.{leaves_words};
ghost use Rattle.smc_plan.specs.Typed.{typed_tree};
ghost use Rattle.smc_plan.specs.Typed as typed;
ghost use Rattle.smc_plan.specs.declared.kind.TheConstants.{SIZE_LIMIT};
ghost use Rattle.smc_meaning.specs.Values.{day, text, value_of};
ghost use Rattle.smc_meaning.specs.Kinds.{IsDay, IsNumber, IsText, sort_of};
ghost use Rattle.smc_meaning.specs.Decimals.{decimal_cell};
ghost use Rattle.smc_meaning.specs.Texts.{IsWhole, bytes_in};

use crate::leaf::{column_day, column_number, column_text, leaf_words};
use crate::{Decimal, TextIn};
use smc_plan::{Leaf, Typed};
use smc_types::FieldType;

/// Whether an expression is a number, a day or a text.
#[derive(Clone, Copy, Debug)]
pub enum Sort {
    Number,
    Day,
    Text,
}

// What the leaf at a place is.
fn leaf_sort(leaves: &[Leaf], place: usize) -> Sort
    ensures { result ≡ sort_of leaves.now (typed.leaf place) }
{
    match leaves.get(place) {
        Some(leaf) => match leaf.kind {
            FieldType::Count | FieldType::Amount | FieldType::Rate => Sort::Number,
            FieldType::Day => Sort::Day,
            FieldType::Text(_) | FieldType::RefTo(_) => Sort::Text,
        },
        None => Sort::Text,
    }
}

/// Whether an expression is a number, a day or a text.
pub fn sort_at(leaves: &[Leaf], expr: &Typed) -> Sort
    ensures { result ≡ sort_of leaves.now (typed_tree expr.now) }
{
    match expr {
        Typed::Number { .. } => Sort::Number,
        Typed::Day(_) => Sort::Day,
        Typed::Text(_) => Sort::Text,
        Typed::Leaf(place) => leaf_sort(leaves, *place),
        Typed::Add(left, _) => sort_at(leaves, left),
        Typed::Sub(left, _) => sort_at(leaves, left),
        Typed::Mul(_, _) => Sort::Number,
        Typed::Minus(_) => Sort::Number,
    }
}

// The number of the leaf at a place.
fn leaf_number(leaves: &[Leaf], place: usize, row: &[u64]) -> Decimal
    requires words { length row.now ≡ leaves_words leaves.now }
    requires number { IsNumber leaves.now (typed.leaf place) }
    ensures { value_of leaves.now (typed.leaf place) row.now ≡ decimal_cell result }
{
    column_number(leaves[place].kind, leaf_words(leaves, place, row))
}

// The day of the leaf at a place.
fn leaf_day(leaves: &[Leaf], place: usize, row: &[u64]) -> i128
    requires words { length row.now ≡ leaves_words leaves.now }
    requires day { IsDay leaves.now (typed.leaf place) }
    ensures { value_of leaves.now (typed.leaf place) row.now ≡ day result }
{
    column_day(leaf_words(leaves, place, row))
}

/// The number that an expression is in a row.
pub fn number_at(leaves: &[Leaf], expr: &Typed, row: &[u64]) -> Decimal
    requires words { length row.now ≡ leaves_words leaves.now }
    requires number { IsNumber leaves.now (typed_tree expr.now) }
    ensures value { value_of leaves.now (typed_tree expr.now) row.now ≡ decimal_cell result }
    ensures small { unsigned_abs result.units < SIZE_LIMIT }
{
    match expr {
        Typed::Number { units, scale } => Decimal {
            units: i128::from(*units),
            scale: *scale,
        },
        Typed::Leaf(place) => leaf_number(leaves, *place, row),
        Typed::Add(left, right) => {
            let left = number_at(leaves, left, row);
            let right = number_at(leaves, right, row);
            left.plus(right)
        }
        Typed::Sub(left, right) => {
            let left = number_at(leaves, left, row);
            let right = number_at(leaves, right, row);
            left.less(right)
        }
        Typed::Mul(left, right) => {
            let left = number_at(leaves, left, row);
            let right = number_at(leaves, right, row);
            left.times(right)
        }
        Typed::Minus(of) => number_at(leaves, of, row).negative(),
        _ => unreachable!(),
    }
}

/// The day that an expression is in a row.
pub fn day_at(leaves: &[Leaf], expr: &Typed, row: &[u64]) -> i128
    requires words { length row.now ≡ leaves_words leaves.now }
    requires day { IsDay leaves.now (typed_tree expr.now) }
    ensures value { value_of leaves.now (typed_tree expr.now) row.now ≡ day result }
    ensures small { unsigned_abs result < SIZE_LIMIT }
{
    match expr {
        Typed::Day(days) => i128::from(*days),
        Typed::Leaf(place) => leaf_day(leaves, *place, row),
        Typed::Add(left, right) => {
            let from = day_at(leaves, left, row);
            let days = number_at(leaves, right, row);
            from + days.units
        }
        Typed::Sub(left, right) => {
            let from = day_at(leaves, left, row);
            let days = number_at(leaves, right, row);
            from - days.units
        }
        _ => unreachable!(),
    }
}

// The text of the leaf at a place.
fn leaf_text<'a>(leaves: &[Leaf], place: usize, row: &'a [u64]) -> TextIn<'a>
    requires words { length row.now ≡ leaves_words leaves.now }
    requires text { IsText leaves.now (typed.leaf place) }
    ensures value { value_of leaves.now (typed.leaf place) row.now ≡ text (bytes_in result) }
    ensures whole { IsWhole result }
{
    column_text(leaves[place].kind, leaf_words(leaves, place, row))
}

/// The text that an expression is in a row.
pub fn text_at<'a>(leaves: &[Leaf], expr: &'a Typed, row: &'a [u64]) -> TextIn<'a>
    requires words { length row.now ≡ leaves_words leaves.now }
    requires text { IsText leaves.now (typed_tree expr.now) }
    ensures value { value_of leaves.now (typed_tree expr.now) row.now ≡ text (bytes_in result) }
    ensures whole { IsWhole result }
{
    match expr {
        Typed::Text(text) => TextIn::Bytes(text.as_str().as_bytes()),
        Typed::Leaf(place) => leaf_text(leaves, *place, row),
        _ => unreachable!(),
    }
}
