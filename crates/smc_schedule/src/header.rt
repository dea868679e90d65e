ghost use Rattle.std.specs.Prelude.{◌≡◌};
ghost use Rattle.smc_lines.specs.Words.{words};
ghost use Rattle.smc_schedule.specs.Header.{header_of, number_within, opening_of, slots_of};

use smc_core::{FIRST_EPOCH, LAST_EPOCH, Opening};
use smc_lines::{Words, read_number};

/// How many passes a schedule has at most.
pub const MAX_PASSES: u64 = 32;

/// How many fields a record has at most.
pub const MAX_WIDTH: u64 = 64;

/// How many slots a schedule has at least; the number of slots is a multiple of this.
pub const BLOCK: u64 = 64;

/// How many slots a schedule has at most.
pub const MAX_SLOTS: u64 = 4096;

/// What counts as the last incarnation used, at most.
pub const MAX_INCARNATION: u64 = (1 << 24) - 1;

/// What the first line of a schedule says: the shape of its one collection, and how the region begins.
#[derive(Clone, Copy, Debug, PartialEq, Eq)]
pub struct Header {
    pub passes: u32,
    pub width: u32,
    pub slots: u32,
    pub opening: Opening,
}

// The number of a word, where it lies between these.
fn read_within(word: &str, least: u64, most: u64) -> Option<u64>
    ensures { result ≡ number_within least most word.now }
{
    match read_number(word, most) {
        Some(number) if least <= number => Some(number),
        _ => None,
    }
}

// The number of slots of a word.
fn read_slots(word: &str) -> Option<u64>
    ensures { result ≡ slots_of word.now }
{
    match read_within(word, BLOCK, MAX_SLOTS) {
        Some(slots) if slots % BLOCK == 0 => Some(slots),
        _ => None,
    }
}

// What stands behind the shape.
fn read_opening(mut words: Words<'_>) -> Option<Opening>
    ensures { result ≡ opening_of words.entry }
{
    let Some(epoch_word) = words.next_word() else {
        return Some(Opening::plain());
    };
    let (Some(epoch), Some(inc_word), Some(incarnation), None) = (
        words.next_word(),
        words.next_word(),
        words.next_word(),
        words.next_word(),
    ) else {
        return None;
    };
    if epoch_word != "epoch" || inc_word != "inc" {
        return None;
    }
    let epoch = read_within(epoch, FIRST_EPOCH, LAST_EPOCH)?;
    let incarnation = read_number(incarnation, MAX_INCARNATION)?;
    Some(Opening {
        epoch,
        incarnation: incarnation as u32,
    })
}

/// Reads the first line of a schedule.
pub fn read_header(text: &str) -> Option<Header>
    ensures { result ≡ header_of (words text.now) }
{
    let mut words = Words::of(text);
    let (Some(shape), Some(passes), Some(width), Some(slots)) = (
        words.next_word(),
        words.next_word(),
        words.next_word(),
        words.next_word(),
    ) else {
        return None;
    };
    if shape != "shape" {
        return None;
    }
    let passes = read_within(passes, 1, MAX_PASSES)?;
    let width = read_within(width, 1, MAX_WIDTH)?;
    let slots = read_slots(slots)?;
    let opening = read_opening(words)?;
    Some(Header {
        passes: passes as u32,
        width: width as u32,
        slots: slots as u32,
        opening,
    })
}

#[cfg(test)]
mod tests {
    use super::*;

    // The numbers of a header, in the order of its line.
    fn numbers(header: Header) -> (u32, u32, u32, u64, u32) {
        let Opening { epoch, incarnation } = header.opening;
        (
            header.passes,
            header.width,
            header.slots,
            epoch,
            incarnation,
        )
    }

    #[test]
    fn shapes_within_their_ranges(rt: HostRuntime) {
        let cases = [
            ("shape 1 1 64", Some((1, 1, 64, 2, 0))),
            ("shape 32 64 4096", Some((32, 64, 4096, 2, 0))),
            ("shape 2 2 128 epoch 5 inc 0", Some((2, 2, 128, 5, 0))),
            (
                "shape 1 1 64 epoch 68719476734 inc 16777215",
                Some((1, 1, 64, 68_719_476_734, 16_777_215)),
            ),
            ("shape 01 01 0064", Some((1, 1, 64, 2, 0))),
            ("shape 0 1 64", None),
            ("shape 33 1 64", None),
            ("shape 1 0 64", None),
            ("shape 1 65 64", None),
            ("shape 1 1 0", None),
            ("shape 1 1 100", None),
            ("shape 1 1 4160", None),
            ("shape 1 1 64 epoch 1 inc 0", None),
            ("shape 1 1 64 epoch 68719476735 inc 0", None),
            ("shape 1 1 64 epoch 2 inc 16777216", None),
            ("shape 1 1 64 epoch 2", None),
            ("shape 1 1 64 epoch 2 inc", None),
            ("shape 1 1 64 inc 0 epoch 2", None),
            ("shape 1 1 64 epoch 2 inc 0 0", None),
            ("shape 1 1", None),
            ("shape  1 1 64", None),
            ("Shape 1 1 64", None),
            ("0 enter", None),
            ("", None),
        ];
        for (text, header) in cases {
            assert_eq!(rt; read_header(text).map(numbers), header, "at {text}");
        }
    }
}
