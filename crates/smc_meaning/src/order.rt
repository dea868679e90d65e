//! The order of the rows of an answer.
ghost use Rattle.std.specs.Prelude.{◌≡◌, map};
ghost use Rattle.std.specs.Cmp.Lexicographic.{slice_cmp};
ghost use Rattle.smc_meaning.specs.Cells.{cell_seen, column_seen};
ghost use Rattle.smc_meaning.specs.Orders.{cell_order, column_order, first_of, key_order, keys_order, order_at, row_order};
ghost use Rattle.smc_meaning.specs.Sorting.{sorted};

use crate::{AnswerRow, Cell, Decimal};
use smc_plan::OrderKey;
use std::cmp::Ordering;

// The order of two numbers.
fn compare_numbers(one: Decimal, other: Decimal) -> Ordering
    ensures { result ≡ cell_order (cell_seen (Cell.Number one)) (cell_seen (Cell.Number other)) }
{
    one.scale
        .cmp(&other.scale)
        .then(one.units.cmp(&other.units))
}

// The order of two values.
fn compare_cells(one: &Cell, other: &Cell) -> Ordering
    ensures { result ≡ cell_order (cell_seen one.now) (cell_seen other.now) }
{
    match (one, other) {
        (Cell::Number(one), Cell::Number(other)) => compare_numbers(*one, *other),
        (Cell::Day(one), Cell::Day(other)) => one.cmp(other),
        (Cell::Text(one), Cell::Text(other)) => one.as_slice().cmp(&other.as_slice()),
        (Cell::Number(_), _) => Ordering::Less,
        (_, Cell::Number(_)) => Ordering::Greater,
        (Cell::Day(_), Cell::Text(_)) => Ordering::Less,
        (Cell::Text(_), Cell::Day(_)) => Ordering::Greater,
    }
}

// The order of two columns.
fn compare_columns(one: &Option<Cell>, other: &Option<Cell>) -> Ordering
    ensures { result ≡ column_order (column_seen one.now) (column_seen other.now) }
{
    match (one, other) {
        (Some(one), Some(other)) => compare_cells(one, other),
        (None, None) => Ordering::Equal,
        (None, Some(_)) => Ordering::Less,
        (Some(_), None) => Ordering::Greater,
    }
}

// The order of two rows by all columns from the left.
fn compare_all(one: &[Option<Cell>], other: &[Option<Cell>]) -> Ordering
    ensures { result ≡ slice_cmp column_order (map column_seen one.now) (map column_seen other.now) }
{
    match (one.split_first(), other.split_first()) {
        (Some((one, one_rest)), Some((other, other_rest))) => {
            let first = compare_columns(one, other);
            if first.is_eq() {
                compare_all(one_rest, other_rest)
            } else {
                first
            }
        }
        (None, None) => Ordering::Equal,
        (None, Some(_)) => Ordering::Less,
        (Some(_), None) => Ordering::Greater,
    }
}

// The order of two rows by the column at a place.
fn compare_at(place: usize, one: &[Option<Cell>], other: &[Option<Cell>]) -> Ordering
    ensures { result ≡ order_at place (map column_seen one.now) (map column_seen other.now) }
{
    match (one.get(place), other.get(place)) {
        (Some(one), Some(other)) => compare_columns(one, other),
        (None, None) => Ordering::Equal,
        (None, Some(_)) => Ordering::Less,
        (Some(_), None) => Ordering::Greater,
    }
}

// The order of two rows by a key.
fn compare_by(key: OrderKey, one: &[Option<Cell>], other: &[Option<Cell>]) -> Ordering
    ensures { result ≡ key_order key (map column_seen one.now) (map column_seen other.now) }
{
    if key.desc {
        compare_at(key.column, other, one)
    } else {
        compare_at(key.column, one, other)
    }
}

// The order of two rows by keys.
fn compare_by_keys(keys: &[OrderKey], one: &[Option<Cell>], other: &[Option<Cell>]) -> Ordering
    ensures { result ≡ keys_order keys.now (map column_seen one.now) (map column_seen other.now) }
{
    match keys.split_first() {
        Some((key, further)) => {
            let first = compare_by(*key, one, other);
            if first.is_eq() {
                compare_by_keys(further, one, other)
            } else {
                first
            }
        }
        None => Ordering::Equal,
    }
}

/// The order of two rows: by the keys, then by all columns from the left.
pub(crate) fn row_order(keys: &[OrderKey], one: &AnswerRow, other: &AnswerRow) -> Ordering
    ensures { result ≡ row_order keys.now one.now other.now }
{
    let first = compare_by_keys(keys, one.as_slice(), other.as_slice());
    if first.is_eq() {
        compare_all(one.as_slice(), other.as_slice())
    } else {
        first
    }
}

/// Puts rows in order.
pub(crate) fn sort_rows(keys: &[OrderKey], rows: &mut Vec<AnswerRow>)
    ensures { rows.new.items ≡ sorted (row_order keys.now) rows.old.items }
{
    rows.as_mut_slice()
        .sort_unstable_by(|one, other| row_order(keys, one, other));
}

/// Keeps the first so many rows, and all where no number is given.
pub(crate) fn keep_first(first: Option<u64>, rows: &mut Vec<AnswerRow>)
    ensures { rows.new.items ≡ first_of first rows.old.items }
{
    if let Some(most) = first {
        rows.truncate(most as usize);
    }
}
