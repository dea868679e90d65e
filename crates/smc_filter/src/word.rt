//! The number or the day in one word of a row, compared with a value that is the same in every row.
ghost use Rattle.std.specs.Prelude.{◌≡◌, ◌≤◌, ◌<◌, ◌≤ℤ◌, ◌-◌, ◌^◌, pos, ℕ, ℤ, List, IfSome, Some, length, slice_get, slice_index, unsigned_abs};
ghost use Rattle.std.specs.Ordering.{int_cmp};
ghost use Rattle.smc_types.specs.Columns.{width_of};
ghost use Rattle.smc_types.specs.Numbers.{moved_back, nearest};
ghost use Rattle.smc_types.specs.Rows as rows;
ghost use Rattle.smc_plan.specs.Conditions.{comparison};
ghost use Rattle.smc_plan.specs.Leaves.{leaves_words};
ghost use Rattle.smc_plan.specs.Typed as typed;
ghost use Rattle.smc_plan.specs.Typed.{TypedTree, typed_tree};
ghost use Rattle.smc_plan.specs.declared.kind.TheConstants.{HUNDREDTHS};
ghost use Rattle.smc_meaning.specs.Comparing.{compare};
ghost use Rattle.smc_meaning.specs.Kept.{meets};
ghost use Rattle.smc_meaning.specs.Values.{cell_of, day, number, value_of};
ghost use Rattle.smc_filter.specs.Constants.{cell_of_constant};
ghost use Rattle.smc_filter.specs.Words.{ComparesAs, FitsWord, meets_word, unit_in};

use crate::constant::{Constant, constant_of};
use smc_plan::{HUNDREDTHS, Leaf, Typed};
use smc_query::Op;
use smc_types::{AMOUNT_MAX, COUNT_MAX, DAY_MAX, DAY_MIN, FieldType, OFFSET, RATE_MAX};

/// Compares the number or the day in the word at place `at` of a row, which a column of type `kind` has, with so many units or
/// days.
#[derive(Clone, Copy, Debug)]
pub struct Word {
    pub op: Op,
    pub at: usize,
    pub kind: FieldType,
    pub units: i64,
}

// The nearest to a moved number from the least to the greatest, of which neither is large.
#[inline(always)]
fn moved_within(word: u64, least: i64, greatest: i64) -> i64
    requires order { least ≤ℤ greatest }
    requires low { unsigned_abs least < 2 ^ 61 }
    requires high { unsigned_abs greatest < 2 ^ 61 }
    ensures { result ≡ nearest least greatest (moved_back word) }
{
    let number = word.min(i64::MAX as u64) as i64 - OFFSET as i64;
    number.clamp(least, greatest)
}

// The units in the word of a column of numbers or days.
#[inline(always)]
fn unit_in(kind: FieldType, word: u64) -> i64
    ensures { result ≡ unit_in kind word }
{
    match kind {
        FieldType::Count => word.min(COUNT_MAX as u64) as i64,
        FieldType::Amount => moved_within(word, -(AMOUNT_MAX as i64), AMOUNT_MAX as i64),
        FieldType::Rate => moved_within(word, 0, RATE_MAX as i64),
        FieldType::Day => moved_within(word, i64::from(DAY_MIN), i64::from(DAY_MAX)),
        FieldType::Text(_) => 0,
        FieldType::RefTo(_) => 0,
    }
}

/// Whether the number or the day in the word of a row is as the operator says.
#[inline]
pub(crate) fn meets_word(word: &Word, row: &[u64]) -> bool
    requires { word.now.at < length row.now }
    ensures { result ≡ meets_word word.now row.now }
{
    let found = unit_in(word.kind, row[word.at]);
    match word.op {
        Op::Equal => found == word.units,
        Op::Unequal => found != word.units,
        Op::Less => found < word.units,
        Op::LessEqual => found <= word.units,
        Op::Greater => found > word.units,
        Op::GreaterEqual => found >= word.units,
    }
}

// Ten to a power.
fn ten_to(power: u32) -> i64
    requires { power ≤ HUNDREDTHS }
    ensures { result ≡ pos (10 ^ power) }
{
    10u64.pow(power) as i64
}

// Units, brought to the scale of a column that has no fewer decimals.
fn brought(units: i64, scale: u32, larger: u32) -> Option<i64>
    requires few { larger ≤ HUNDREDTHS }
    ensures { IfSome result (λ made. (other : ℤ) → compare (number other larger) (number units scale) ≡ int_cmp other made) }
{
    if scale <= larger {
        units.checked_mul(ten_to(larger - scale))
    } else {
        None
    }
}

// How many decimals the numbers in the word of a column have, where it has numbers.
fn decimals_of(kind: FieldType) -> Option<u32>
    ensures few { IfSome result (λ scale. scale ≤ HUNDREDTHS) }
    ensures width { IfSome result (λ scale. width_of kind ≡ 1) }
    ensures value { IfSome result (λ scale. (words : List ℕ) → cell_of kind (rows.value_of kind words) ≡ number (unit_in kind (slice_index words 0)) scale) }
{
    match kind {
        FieldType::Count => Some(0),
        FieldType::Amount => Some(HUNDREDTHS),
        FieldType::Rate => Some(HUNDREDTHS),
        FieldType::Day | FieldType::Text(_) | FieldType::RefTo(_) => None,
    }
}

// The units with which those in the word of a column compare as its number does with another.
fn number_against(kind: FieldType, units: i64, scale: u32) -> Option<i64>
    ensures width { IfSome result (λ made. width_of kind ≡ 1) }
    ensures same { IfSome result (λ made. ComparesAs kind (number units scale) made) }
{
    brought(units, scale, decimals_of(kind)?)
}

// The days with which those in the word of a column compare as its day does with another.
fn day_against(kind: FieldType, days: i64) -> Option<i64>
    ensures width { IfSome result (λ made. width_of kind ≡ 1) }
    ensures same { IfSome result (λ made. ComparesAs kind (day days) made) }
{
    match kind {
        FieldType::Day => Some(days),
        _ => None,
    }
}

// The units with which those in the word of a column compare as its value does with a constant.
fn units_against(kind: FieldType, constant: Constant) -> Option<i64>
    ensures width { IfSome result (λ made. width_of kind ≡ 1) }
    ensures same { IfSome result (λ made. ComparesAs kind (cell_of_constant constant) made) }
{
    match constant {
        Constant::Number { units, scale } => number_against(kind, units, scale),
        Constant::Day(days) => day_against(kind, days),
    }
}

// How many words these leaves take, where a number counts them.
fn words_of(leaves: &[Leaf]) -> Option<usize>
    ensures { IfSome result (λ words. words ≡ leaves_words leaves.now) }
{
    let mut words = 0usize;
    for leaf in leaves {
        words = words.checked_add(leaf.kind.width() as usize)?;
    }
    Some(words)
}

// The comparison of the leaf at a place with a constant, where the leaf has one word.
fn word_of_leaf(
    leaves: &[Leaf],
    op: Op,
    place: usize,
    leaf: &Leaf,
    constant: Constant,
) -> Option<Word>
    requires found { slice_get leaves.now place ≡ Some leaf.now }
    ensures same { IfSome result (λ word. (words : List ℕ) (right : TypedTree) → value_of leaves.now right words ≡ cell_of_constant constant
        → meets leaves.now (comparison op (typed.leaf place) right) words ≡ meets_word word words) }
    ensures fits { IfSome result (FitsWord leaves.now) }
{
    let units = units_against(leaf.kind, constant)?;
    let (before, _) = leaves.split_at(place);
    let at = words_of(before)?;
    Some(Word {
        op,
        at,
        kind: leaf.kind,
        units,
    })
}

/// The comparison of two expressions, where the first is a leaf of one word and the second a constant.
pub(crate) fn word_of(leaves: &[Leaf], op: Op, left: &Typed, right: &Typed) -> Option<Word>
    ensures same { IfSome result (λ word. (words : List ℕ)
        → meets leaves.now (comparison op (typed_tree left.now) (typed_tree right.now)) words ≡ meets_word word words) }
    ensures fits { IfSome result (FitsWord leaves.now) }
{
    match left {
        Typed::Leaf(place) => {
            let leaf = leaves.get(*place)?;
            word_of_leaf(leaves, op, *place, leaf, constant_of(right)?)
        }
        _ => None,
    }
}
