//! The leaves of a row, each in its own words.
ghost use Rattle.std.specs.Prelude.{◌≡◌, ◌≤◌, ◌<◌, ◌^◌, true, length, slice_get, Some};
ghost use Rattle.smc_types.specs.Cells.{is_number};
ghost use Rattle.smc_types.specs.Columns.{width_of};
ghost use Rattle.smc_types.specs.Rows as rows;
ghost use Rattle.smc_types.specs.declared.column.FieldType.TheVariants.{Day};
ghost use Rattle.smc_plan.specs.Leaves.{leaves_words};
ghost use Rattle.smc_meaning.specs.Values.{cell_of, day, leaf_words, scale_of, text};
ghost use Rattle.smc_meaning.specs.Decimals.{decimal_cell};
ghost use Rattle.smc_meaning.specs.Kinds.{sort_of_kind};
ghost use Rattle.smc_meaning.specs.Texts.{IsWhole, bytes_in};
ghost use Rattle.smc_meaning.specs.declared.value.Sort.TheVariants.{Text as OfText};
ghost use Rattle.smc_plan.specs.Bounds.{kind_of};

use crate::{Decimal, TextIn};
use smc_plan::{HUNDREDTHS, Leaf};
use smc_types::{FieldType, day_in, number_in};

// How many words these leaves take.
fn words_of(leaves: &[Leaf]) -> usize
    requires { leaves_words leaves.now < 2 ^ 64 }
    ensures { result ≡ leaves_words leaves.now }
{
    let mut words = 0;
    for leaf in leaves {
        words += leaf.kind.width() as usize;
    }
    words
}

/// The words of the leaf at a place, of the words of a row.
pub(crate) fn leaf_words<'a>(leaves: &[Leaf], place: usize, row: &'a [u64]) -> &'a [u64]
    requires place { place < length leaves.now }
    requires words { length row.now ≡ leaves_words leaves.now }
    ensures words { (leaf : Leaf) → slice_get leaves.now place ≡ Some leaf → result.now ≡ leaf_words leaves.now place leaf row.now }
    ensures width { (leaf : Leaf) → slice_get leaves.now place ≡ Some leaf → length result.now ≡ width_of leaf.kind }
{
    let (before, _) = leaves.split_at(place);
    let (_, rest) = row.split_at(words_of(before));
    let (words, _) = rest.split_at(leaves[place].kind.width() as usize);
    words
}

/// How many decimals the numbers of a column have.
pub(crate) fn scale_of(kind: FieldType) -> u32
    ensures { result ≡ scale_of kind }
{
    match kind {
        FieldType::Amount => HUNDREDTHS,
        FieldType::Rate => HUNDREDTHS,
        _ => 0,
    }
}

/// The number in the words of a column.
pub(crate) fn column_number(kind: FieldType, words: &[u64]) -> Decimal
    requires number { is_number kind ≡ true }
    requires words { length words.now ≡ width_of kind }
    ensures { cell_of kind (rows.value_of kind words.now) ≡ decimal_cell result }
{
    Decimal {
        units: number_in(kind, words[0]),
        scale: scale_of(kind),
    }
}

/// The day in the words of a column.
pub(crate) fn column_day(words: &[u64]) -> i128
    requires { length words.now ≡ width_of Day }
    ensures { cell_of Day (rows.value_of Day words.now) ≡ day result }
{
    i128::from(day_in(words[0]))
}

/// The text in the words of a column.
pub(crate) fn column_text<'a>(kind: FieldType, words: &'a [u64]) -> TextIn<'a>
    requires text { sort_of_kind (kind_of kind) ≡ OfText }
    requires words { length words.now ≡ width_of kind }
    ensures value { cell_of kind (rows.value_of kind words.now) ≡ text (bytes_in result) }
    ensures whole { IsWhole result }
{
    match kind {
        FieldType::Text(width) => TextIn::Words { words, width },
        _ => TextIn::Bytes(&[]),
    }
}
