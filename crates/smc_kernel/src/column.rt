//! The values of an expression at some places of a batch, column by column, where all that is reckoned fits 64 bits.
ghost use Rattle.std.specs.Prelude.{◌≡◌, ◌^◌, ◌≤◌, ◌<◌, ◌≤ℤ◌, pos, map, length, replicate, slice_get, slice_index, unsigned_abs, IfSome, Some};
ghost use Rattle.std.specs.List.{All};
ghost use Rattle.smc_types.specs.Numbers.{moved_back, nearest};
ghost use Rattle.smc_plan.specs.Leaves.{leaves_words};
ghost use Rattle.smc_plan.specs.Typed as typed;
ghost use Rattle.smc_plan.specs.Typed.{typed_tree};
ghost use Rattle.smc_meaning.specs.Groups.{values_of};
ghost use Rattle.smc_meaning.specs.Values.{day, less, number, plus, times};
ghost use Rattle.smc_kernel.specs.Batches.{ArePlaces, rows_at};
ghost use Rattle.smc_kernel.specs.Columns.{cell_in, pairs, unit_in, unit_of, values_in};
ghost use Rattle.smc_kernel.specs.declared.batch.TheConstants.{ROOM};

use crate::batch::Batch;
use crate::units::{Reckoning, Units, reckon_all};
use smc_plan::{HUNDREDTHS, Leaf, Typed};
use smc_types::{AMOUNT_MAX, COUNT_MAX, DAY_MAX, DAY_MIN, FieldType, OFFSET, RATE_MAX};

/// Below this many, the units of a number in a query are reckoned with in columns.
const UNITS_LIMIT: u64 = 0x4000_0000_0000_0000;

/// What the units of a column are.
#[derive(Clone, Copy, Debug)]
pub(crate) enum Unit {
    Number { scale: u32 },
    Day,
}

/// Values of one unit, one for each of some places.
#[derive(Debug, Drop)]
pub(crate) struct Column {
    pub(crate) unit: Unit,
    pub(crate) units: Units,
}

// Ten to a power, where it fits 64 bits.
fn ten_to(power: u32) -> Option<i64>
    ensures factor { IfSome result (λ factor. factor ≡ pos (10 ^ power)) }
    ensures small { IfSome result (λ factor. unsigned_abs factor < 2 ^ 62) }
{
    if power <= 18 {
        Some(10u64.pow(power) as i64)
    } else {
        None
    }
}

// The values of a column and of another, added.
fn plus(one: &Column, other: &Column) -> Option<Column>
    requires same { length one.now.units ≡ length other.now.units }
    ensures values { IfSome result (λ made. values_in made ≡ pairs plus (values_in one.now) (values_in other.now)) }
    ensures many { IfSome result (λ made. length made.units ≡ length one.now.units) }
{
    match (one.unit, other.unit) {
        (Unit::Number { scale: left }, Unit::Number { scale: right }) => {
            let scale = left.max(right);
            let step = Reckoning::Plus {
                left: ten_to(scale - left)?,
                right: ten_to(scale - right)?,
            };
            let units = reckon_all(step, one.units.as_slice(), other.units.as_slice())?;
            Some(Column {
                unit: Unit::Number { scale },
                units,
            })
        }
        (Unit::Day, Unit::Number { .. }) => {
            let step = Reckoning::Plus { left: 1, right: 1 };
            let units = reckon_all(step, one.units.as_slice(), other.units.as_slice())?;
            Some(Column {
                unit: Unit::Day,
                units,
            })
        }
        _ => None,
    }
}

// The values of a column taken from those of another.
fn less(one: &Column, other: &Column) -> Option<Column>
    requires same { length one.now.units ≡ length other.now.units }
    ensures values { IfSome result (λ made. values_in made ≡ pairs less (values_in one.now) (values_in other.now)) }
    ensures many { IfSome result (λ made. length made.units ≡ length one.now.units) }
{
    match (one.unit, other.unit) {
        (Unit::Number { scale: left }, Unit::Number { scale: right }) => {
            let scale = left.max(right);
            let step = Reckoning::Less {
                left: ten_to(scale - left)?,
                right: ten_to(scale - right)?,
            };
            let units = reckon_all(step, one.units.as_slice(), other.units.as_slice())?;
            Some(Column {
                unit: Unit::Number { scale },
                units,
            })
        }
        (Unit::Day, Unit::Number { .. }) => {
            let step = Reckoning::Less { left: 1, right: 1 };
            let units = reckon_all(step, one.units.as_slice(), other.units.as_slice())?;
            Some(Column {
                unit: Unit::Day,
                units,
            })
        }
        _ => None,
    }
}

// The values of two columns, multiplied.
fn times(one: &Column, other: &Column) -> Option<Column>
    requires same { length one.now.units ≡ length other.now.units }
    ensures values { IfSome result (λ made. values_in made ≡ pairs times (values_in one.now) (values_in other.now)) }
    ensures many { IfSome result (λ made. length made.units ≡ length one.now.units) }
{
    match (one.unit, other.unit) {
        (Unit::Number { scale: left }, Unit::Number { scale: right }) => {
            let scale = left.checked_add(right)?;
            let units = reckon_all(
                Reckoning::Times,
                one.units.as_slice(),
                other.units.as_slice(),
            )?;
            Some(Column {
                unit: Unit::Number { scale },
                units,
            })
        }
        _ => None,
    }
}

// The nearest to a moved number from the least to the greatest, of which neither is large.
#[inline(always)]
fn moved_within(word: u64, least: i64, greatest: i64) -> i64
    requires order { least ≤ℤ greatest }
    requires low { unsigned_abs least < 2 ^ 61 }
    requires high { unsigned_abs greatest < 2 ^ 61 }
    ensures { result ≡ nearest least greatest (moved_back word) }
{
    let number = word.min(i64::MAX as u64) as i64 - OFFSET as i64;
    number.clamp(least, greatest)
}

// The units in the word of a column of numbers or days.
#[inline(always)]
fn unit_in(kind: FieldType, word: u64) -> i64
    ensures { result ≡ unit_in kind word }
{
    match kind {
        FieldType::Count => word.min(COUNT_MAX as u64) as i64,
        FieldType::Amount => moved_within(word, -(AMOUNT_MAX as i64), AMOUNT_MAX as i64),
        FieldType::Rate => moved_within(word, 0, RATE_MAX as i64),
        FieldType::Day => moved_within(word, i64::from(DAY_MIN), i64::from(DAY_MAX)),
        FieldType::Text(_) => 0,
        FieldType::RefTo(_) => 0,
    }
}

// What the units of a column of numbers or days are.
fn unit_of(kind: FieldType) -> Option<Unit>
    ensures { result ≡ unit_of kind }
{
    match kind {
        FieldType::Count => Some(Unit::Number { scale: 0 }),
        FieldType::Amount => Some(Unit::Number { scale: HUNDREDTHS }),
        FieldType::Rate => Some(Unit::Number { scale: HUNDREDTHS }),
        FieldType::Day => Some(Unit::Day),
        FieldType::Text(_) => None,
        FieldType::RefTo(_) => None,
    }
}

// The units in the words of a column at these places.
fn units_at(kind: FieldType, column: &[u64], places: &[u8]) -> Units
    requires within { All (λ place. place < length column.now) places.now }
    requires few { length places.now ≤ ROOM }
    ensures { result ≡ map (λ place. unit_in kind (slice_index column.now place)) places.now }
{
    let mut units = Units::new();
    for place in places {
        units.push(unit_in(kind, column[usize::from(*place)]));
    }
    units
}

// How many words these leaves take, where a number counts them.
fn words_of(leaves: &[Leaf]) -> Option<usize>
    ensures { IfSome result (λ words. words ≡ leaves_words leaves.now) }
{
    let mut words = 0usize;
    for leaf in leaves {
        words = words.checked_add(leaf.kind.width() as usize)?;
    }
    Some(words)
}

// The values of a leaf that stands at a place, where it is a number or a day.
fn values_of_leaf(
    leaves: &[Leaf],
    place: usize,
    leaf: &Leaf,
    batch: &Batch,
    places: &[u8],
) -> Option<Column>
    requires found { slice_get leaves.now place ≡ Some leaf.now }
    requires words { batch.now.width ≡ leaves_words leaves.now }
    requires places { ArePlaces batch.now.rows places.now }
    ensures values { IfSome result (λ made. values_of leaves.now (typed.leaf place) (rows_at batch.now.rows places.now) ≡ values_in made) }
    ensures many { IfSome result (λ made. length made.units ≡ length places.now) }
{
    let unit = unit_of(leaf.kind)?;
    let (before, _) = leaves.split_at(place);
    let at = words_of(before)?;
    let units = units_at(leaf.kind, batch.column(at), places);
    Some(Column { unit, units })
}

// The values of a leaf at these places, where it is a number or a day.
fn leaf_column(leaves: &[Leaf], place: usize, batch: &Batch, places: &[u8]) -> Option<Column>
    requires words { batch.now.width ≡ leaves_words leaves.now }
    requires places { ArePlaces batch.now.rows places.now }
    ensures values { IfSome result (λ made. values_of leaves.now (typed.leaf place) (rows_at batch.now.rows places.now) ≡ values_in made) }
    ensures many { IfSome result (λ made. length made.units ≡ length places.now) }
{
    match leaves.get(place) {
        Some(leaf) => values_of_leaf(leaves, place, leaf, batch, places),
        None => None,
    }
}

// The same value so many times.
fn constant(unit: Unit, units: i64, count: usize) -> Column
    requires { count ≤ ROOM }
    ensures values { values_in result ≡ replicate count (cell_in unit units) }
    ensures many { length result.units ≡ count }
{
    Column {
        unit,
        units: Units::repeated(units, count),
    }
}

// The same number so many times, where its units are not too large.
fn number_column(units: u64, scale: u32, count: usize) -> Option<Column>
    requires { count ≤ ROOM }
    ensures values { IfSome result (λ made. values_in made ≡ replicate count (number (pos units) scale)) }
    ensures many { IfSome result (λ made. length made.units ≡ count) }
{
    if units < UNITS_LIMIT {
        Some(constant(Unit::Number { scale }, units as i64, count))
    } else {
        None
    }
}

// The same day so many times.
fn day_column(days: i32, count: usize) -> Column
    requires { count ≤ ROOM }
    ensures values { values_in result ≡ replicate count (day days) }
    ensures many { length result.units ≡ count }
{
    constant(Unit::Day, i64::from(days), count)
}

/// The values of an expression at these places, where all that is reckoned fits 64 bits.
pub(crate) fn column_at(
    leaves: &[Leaf],
    expr: &Typed,
    batch: &Batch,
    places: &[u8],
) -> Option<Column>
    requires words { batch.now.width ≡ leaves_words leaves.now }
    requires places { ArePlaces batch.now.rows places.now }
    ensures values { IfSome result (λ made. values_of leaves.now (typed_tree expr.now) (rows_at batch.now.rows places.now) ≡ values_in made) }
    ensures many { IfSome result (λ made. length made.units ≡ length places.now) }
{
    match expr {
        Typed::Number { units, scale } => { number_column(*units, *scale, places.len()) }
        Typed::Day(days) => Some(day_column(*days, places.len())),
        Typed::Leaf(place) => leaf_column(leaves, *place, batch, places),
        Typed::Add(left, right) => {
            let left = column_at(leaves, left, batch, places)?;
            let right = column_at(leaves, right, batch, places)?;
            plus(&left, &right)
        }
        Typed::Sub(left, right) => {
            let left = column_at(leaves, left, batch, places)?;
            let right = column_at(leaves, right, batch, places)?;
            less(&left, &right)
        }
        Typed::Mul(left, right) => {
            let left = column_at(leaves, left, batch, places)?;
            let right = column_at(leaves, right, batch, places)?;
            times(&left, &right)
        }
        Typed::Text(_) => None,
        Typed::Minus(_) => None,
    }
}
