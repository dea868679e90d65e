//! What output columns show of the rows that were taken.
ghost use Rattle.std.specs.Prelude.{◌≡◌, ◌<◌, ◌≤◌, ◌+◌, ◌-◌, ◌*◌, ◌^◌, ◌++◌, ◌∷◌, [], pos, ◌*ℤ◌, List, ℕ, Some, None, IfOk, OnOk, true, length, map, unsigned_abs};
ghost use Rattle.std.specs.List.{AllByRecursion, All};
ghost use Rattle.smc_folds.specs.Kinds.{Kind as Fold};
ghost use Rattle.smc_types.specs.Columns.{width_of};
ghost use Rattle.smc_types.specs.Texts.{text_of};
ghost use Rattle.smc_types.specs.declared.column.FieldType.TheVariants.{Text};
ghost use Rattle.smc_plan.specs.Kinds.{IsOutput, IsPlan};
ghost use Rattle.smc_plan.specs.Leaves.{leaves_words};
ghost use Rattle.smc_plan.specs.Outputs.{output_tree};
ghost use Rattle.smc_plan.specs.Planned.{output_trees, plan_tree};
ghost use Rattle.smc_plan.specs.Typed.{typed_tree};
ghost use Rattle.smc_plan.specs.declared.kind.TheConstants.{MAX_SCALE, SIZE_LIMIT, SUM_LIMIT};
ghost use Rattle.smc_kernel.specs.Plain.{ArePlain, IsPlain, is_plain};
ghost use Rattle.smc_meaning.specs.Cells.{CanPrint, cell_seen, column_seen};
ghost use Rattle.smc_meaning.specs.Groups.{average_scale, divided, nearest_part, scale_in, shown};
ghost use Rattle.smc_meaning.specs.Shown.{IsShowable};
ghost use Rattle.smc_meaning.specs.Texts.{IsWhole, bytes_in};
ghost use Rattle.smc_meaning.specs.Values.{number, units_at, value_of};
ghost use Rattle.smc_meaning.specs.declared.rows.TheConstants.{ROWS_MAX};
ghost use Rattle.smc_kernel.specs.Taken.{AreTotals, FitsTotal, IsTotal, end_found};

use crate::total::Total;
use smc_meaning::{
    AnswerRow, Cell, Decimal, ShownText, Sort, TextIn, day_at, number_at, sort_at, text_at,
};
use smc_plan::{HUNDREDTHS, Kind, Leaf, Output, Plan, Typed};
use smc_types::{text_byte, text_len};
use smc_words::NoMemory;
use std::alloc::Global;

// The bytes of a text in words of a column.
fn bytes_of(alloc: Global, words: &[u64], width: u32) -> Result<Vec<u8>, NoMemory>
    requires { length words.now ≡ width_of (Text width) }
    ensures { IfOk result (λ bytes. bytes.items ≡ text_of width words.now) }
{
    let mut bytes = Vec::new(alloc);
    for place in 0..text_len(words, width) {
        bytes.push(text_byte(words, place))?;
    }
    Ok(bytes)
}

// A text in memory of its own.
fn text_shown(alloc: Global, text: TextIn) -> Result<ShownText, NoMemory>
    requires { IsWhole text }
    ensures { IfOk result (λ shown. shown ≡ bytes_in text.entry) }
{
    match text {
        TextIn::Bytes(bytes) => Ok(ShownText::of(Vec::from_slice(alloc, bytes)?)),
        TextIn::Words { words, width } => Ok(ShownText::of(bytes_of(alloc, words, width)?)),
    }
}

// The value of a number or a path in a row. A day is that of a column, and so one of the calendar.
fn value_shown(alloc: Global, leaves: &[Leaf], expr: &Typed, row: &[u64]) -> Result<Cell, NoMemory>
    requires words { length row.now ≡ leaves_words leaves.now }
    requires showable { IsShowable leaves.now (typed_tree expr.now) }
    ensures { IfOk result (λ cell. cell_seen cell ≡ value_of leaves.now (typed_tree expr.now) row.now) }
{
    match sort_at(leaves, expr) {
        Sort::Number => Ok(Cell::Number(number_at(leaves, expr, row))),
        Sort::Day => Ok(Cell::Day(day_at(leaves, expr, row) as i32)),
        Sort::Text => Ok(Cell::Text(text_shown(alloc, text_at(leaves, expr, row))?)),
    }
}

// Units divided into so many parts, rounded to the nearest whole, halves up.
fn nearest_part(units: u128, parts: u128) -> u128
    requires parts { 0 < parts }
    requires few { parts < 2 ^ 64 }
    requires small { units < 2 ^ 120 }
    ensures nearest { result ≡ nearest_part units parts }
    ensures small { result < 2 ^ 122 }
{
    (2 * units + parts) / (2 * parts)
}

// Units divided by a count, and rounded to the nearest whole one, halves away from zero.
fn divided(units: i128, parts: usize) -> i128
    requires parts { 0 < parts }
    requires small { unsigned_abs units < 2 ^ 120 }
    ensures { result ≡ divided units parts }
{
    let size = nearest_part(units.unsigned_abs(), parts as u128) as i128;
    if units < 0 { -size } else { size }
}

// Units, of which each becomes ten to this power.
fn widened(units: i128, power: u32) -> i128
    requires few { power ≤ MAX_SCALE }
    requires small { unsigned_abs units * 10 ^ power < 2 ^ 127 }
    ensures { result ≡ units *ℤ pos (10 ^ power) }
{
    units * i128::from(10u64.pow(power))
}

// How many decimals a number has.
fn scale_in(kind: Kind) -> u32
    ensures { result ≡ scale_in kind }
{
    match kind {
        Kind::Number(number) => number.scale,
        Kind::Day { .. } => 0,
        Kind::Text => 0,
    }
}

// The sum of so many values.
fn sum_shown(total: &Total, kind: Kind) -> Option<Cell>
    ensures { column_seen result ≡ Some (number total.now.sum (scale_in kind)) }
{
    Some(Cell::Number(Decimal {
        units: total.sum,
        scale: scale_in(kind),
    }))
}

// The average of so many values.
fn average_shown(total: &Total, kind: Kind, kept: usize) -> Option<Cell>
    requires small { unsigned_abs total.now.sum ≤ kept * (SUM_LIMIT - 1) }
    requires few { kept ≤ ROWS_MAX }
    ensures none { kept ≡ 0 → column_seen result ≡ None }
    ensures some { 0 < kept → column_seen result
        ≡ Some (number (divided (units_at (average_scale (scale_in kind)) total.now.sum (scale_in kind)) kept) (average_scale (scale_in kind))) }
{
    if kept == 0 {
        return None;
    }
    let scale = scale_in(kind);
    let places = scale.max(HUNDREDTHS);
    let units = widened(total.sum, places - scale);
    Some(Cell::Number(Decimal {
        units: divided(units, kept),
        scale: places,
    }))
}

// The value at an end of the order, where there are rows.
fn end_shown(
    alloc: Global,
    leaves: &[Leaf],
    of: &Typed,
    total: &Total,
    kept: usize,
) -> Result<Option<Cell>, NoMemory>
    requires words { length total.now.best.items ≡ leaves_words leaves.now }
    requires showable { IsShowable leaves.now (typed_tree of.now) }
    ensures { IfOk result (λ shown. column_seen shown ≡ end_found leaves.now (typed_tree of.now) kept total.now.best.items) }
{
    if kept == 0 {
        return Ok(None);
    }
    Ok(Some(value_shown(alloc, leaves, of, &total.best)?))
}

// What an output column shows.
fn column_shown(
    alloc: Global,
    leaves: &[Leaf],
    item: &Output,
    total: &Total,
    kept: usize,
) -> Result<Option<Cell>, NoMemory>
    requires output { IsOutput leaves.now (output_tree item.now) }
    requires plain { is_plain (output_tree item.now) ≡ true }
    requires fits { FitsTotal (leaves_words leaves.now) kept total.now }
    requires few { kept ≤ ROWS_MAX }
    ensures shown { (kinds : List Fold) (rows : List (List ℕ)) → kept ≡ length rows → IsTotal leaves.now (output_tree item.now) total.now rows
        → IfOk result (λ made. column_seen made ≡ shown kinds leaves.now (output_tree item.now) rows) }
    ensures printable { IfOk result (λ made. CanPrint (column_seen made)) }
{
    match item {
        Output::Count => Ok(Some(Cell::Number(Decimal {
            units: kept as i128,
            scale: 0,
        }))),
        Output::Sum(of) => Ok(sum_shown(total, of.kind)),
        Output::Avg(of) => Ok(average_shown(total, of.kind, kept)),
        Output::Min(of) => end_shown(alloc, leaves, &of.typed, total, kept),
        Output::Max(of) => end_shown(alloc, leaves, &of.typed, total, kept),
        Output::Fold { .. } => unreachable!(),
    }
}

// Puts what an output column shows behind what is there.
fn push_column(
    alloc: Global,
    leaves: &[Leaf],
    item: &Output,
    total: &Total,
    kept: usize,
    columns: &mut Vec<Option<Cell>>,
) -> Result<(), NoMemory>
    requires output { IsOutput leaves.now (output_tree item.now) }
    requires plain { is_plain (output_tree item.now) ≡ true }
    requires fits { FitsTotal (leaves_words leaves.now) kept total.now }
    requires few { kept ≤ ROWS_MAX }
    requires printable { All CanPrint (map column_seen columns.old.items) }
    ensures shown { (kinds : List Fold) (rows : List (List ℕ)) → kept ≡ length rows → IsTotal leaves.now (output_tree item.now) total.now rows
        → OnOk result (map column_seen columns.new.items ≡ map column_seen columns.old.items ++ shown kinds leaves.now (output_tree item.now) rows ∷ []) }
    ensures printable { OnOk result (All CanPrint (map column_seen columns.new.items)) }
{
    let column = column_shown(alloc, leaves, item, total, kept)?;
    columns.push(column)?;
    Ok(())
}

// Puts what output columns show behind what is there.
fn push_columns(
    alloc: Global,
    leaves: &[Leaf],
    items: &[Output],
    totals: &[Total],
    kept: usize,
    columns: &mut Vec<Option<Cell>>,
) -> Result<(), NoMemory>
    requires items { AllByRecursion (IsOutput leaves.now) (output_trees items.now) }
    requires plain { ArePlain (output_trees items.now) }
    requires many { length totals.now ≡ length items.now }
    requires fit { AllByRecursion (FitsTotal (leaves_words leaves.now) kept) totals.now }
    requires few { kept ≤ ROWS_MAX }
    requires printable { All CanPrint (map column_seen columns.old.items) }
    ensures shown { (kinds : List Fold) (rows : List (List ℕ)) → kept ≡ length rows → AreTotals leaves.now (output_trees items.now) totals.now rows
        → OnOk result (map column_seen columns.new.items ≡ map column_seen columns.old.items ++ map (λ item. shown kinds leaves.now item rows) (output_trees items.now)) }
    ensures printable { OnOk result (All CanPrint (map column_seen columns.new.items)) }
{
    match (items.split_first(), totals.split_first()) {
        (Some((item, more_items)), Some((total, more_totals))) => {
            push_column(alloc, leaves, item, total, kept, columns)?;
            push_columns(alloc, leaves, more_items, more_totals, kept, columns)
        }
        _ => Ok(()),
    }
}

/// The row of the one group that all rows are.
pub(crate) fn group_row(
    alloc: Global,
    plan: &Plan,
    totals: &[Total],
    kept: usize,
) -> Result<AnswerRow, NoMemory>
    requires sound { IsPlan plan.now.leaves (plan_tree plan.now) }
    requires plain { IsPlain (plan_tree plan.now) }
    requires many { length totals.now ≡ length plan.now.items }
    requires fit { AllByRecursion (FitsTotal (leaves_words plan.now.leaves) kept) totals.now }
    requires few { kept ≤ ROWS_MAX }
    ensures { (kinds : List Fold) (rows : List (List ℕ)) → kept ≡ length rows → AreTotals plan.now.leaves (output_trees plan.now.items) totals.now rows
        → IfOk result (λ row. row ≡ map (λ item. shown kinds plan.now.leaves item rows) (output_trees plan.now.items)) }
{
    let mut columns = Vec::new(alloc);
    push_columns(
        alloc,
        plan.leaves(),
        plan.items.as_slice(),
        totals,
        kept,
        &mut columns,
    )?;
    Ok(AnswerRow::of(columns))
}
