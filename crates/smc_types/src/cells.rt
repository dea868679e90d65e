//! One column of a record, read from its words without memory. `decode` reads whole rows, and says the same.
ghost use Rattle.std.specs.Prelude.{◌≡◌, ℕ, ◌*◌, ◌<◌, ◌∷◌, [], true, length, slice_index};
ghost use Rattle.smc_types.specs.Cells.{is_number};
ghost use Rattle.smc_types.specs.Columns.{width_of};
ghost use Rattle.smc_types.specs.Rows.{value_of};
ghost use Rattle.smc_types.specs.Texts.{bytes_of, text_of};
ghost use Rattle.smc_types.specs.declared.column.FieldType.TheVariants.{Day, Text};
ghost use Rattle.smc_types.specs.declared.column.TheConstants.{WORD_BYTES};
ghost use Rattle.smc_types.specs.declared.row.Value.TheVariants.{Number, Day as OfDay};

use crate::FieldType;
use crate::column::WORD_BYTES;
use crate::number::{AMOUNT_MAX, COUNT_MAX, DAY_MAX, DAY_MIN, RATE_MAX, moved_back, nearest};
use crate::text::is_text_byte;

/// The number in the word of a Count, an Amount or a Rate: of a Count the number itself, of the others hundredths. A
/// number outside the column's range counts as the nearest end of it.
#[inline]
pub fn number_in(kind: FieldType, word: u64) -> i128
    requires { is_number kind ≡ true }
    ensures { Number result ≡ value_of kind (word ∷ []) }
{
    match kind {
        FieldType::Count => nearest(0, COUNT_MAX, i128::from(word)),
        FieldType::Amount => nearest(-AMOUNT_MAX, AMOUNT_MAX, moved_back(word)),
        FieldType::Rate => nearest(0, RATE_MAX, moved_back(word)),
        _ => unreachable!(),
    }
}

/// The day in the word of a Day, in days from 1970-01-01. A day outside the years 0000 to 9999 counts as the nearest one.
#[inline]
pub fn day_in(word: u64) -> i32
    ensures { OfDay result ≡ value_of Day (word ∷ []) }
{
    nearest(i128::from(DAY_MIN), i128::from(DAY_MAX), moved_back(word)) as i32
}

/// The byte at this place of a text in words, the highest byte of a word first. Behind the end of the text it says nothing.
#[inline]
pub fn text_byte(words: &[u64], place: usize) -> u8
    requires { place < length words.now * WORD_BYTES }
    ensures byte { result ≡ slice_index (bytes_of words.now) place }
    ensures text { (width : ℕ) → place < length (text_of width words.now)
        → result ≡ slice_index (text_of width words.now) place }
{
    let bytes = words[place / WORD_BYTES as usize].to_be_bytes();
    bytes[place % WORD_BYTES as usize]
}

/// How many bytes the text in the words of a Text of this width has.
pub fn text_len(words: &[u64], width: u32) -> usize
    requires { length words.now ≡ width_of (Text width) }
    ensures { result ≡ length (text_of width words.now) }
{
    for place in 0..width as usize {
        if !is_text_byte(text_byte(words, place)) {
            return place;
        }
    }
    width as usize
}
