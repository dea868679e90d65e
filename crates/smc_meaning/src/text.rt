//! Texts of a row, compared byte by byte where they stand.
ghost use Rattle.std.specs.Prelude.{◌≡◌, ◌<◌, IfOk, length, slice_index};
ghost use Rattle.std.specs.Ordering.{nat_cmp};
ghost use Rattle.std.specs.Cmp.Lexicographic.{slice_cmp};
ghost use Rattle.smc_types.specs.Columns.{width_of};
ghost use Rattle.smc_meaning.specs.Texts.{IsWhole, bytes_in};

use crate::ShownText;
use smc_types::{text_byte, text_len};
use smc_words::NoMemory;
use std::alloc::Global;
use std::cmp::Ordering;

/// A text of a row.
#[derive(Clone, Copy, Debug)]
pub enum TextIn<'a> {
    /// Its bytes.
    Bytes(&'a [u8]),
    /// The words of a column of texts of at most `width` bytes.
    Words { words: &'a [u64], width: u32 },
}

impl<'a> TextIn<'a> {
    // How many bytes it has.
    fn len(self) -> usize
        requires { IsWhole self }
        ensures { result ≡ length (bytes_in self.entry) }
    {
        match self {
            TextIn::Bytes(bytes) => bytes.len(),
            TextIn::Words { words, width } => text_len(words, width),
        }
    }

    // The byte at a place.
    fn byte(self, place: usize) -> u8
        requires { place < length (bytes_in self) }
        ensures { result ≡ slice_index (bytes_in self.entry) place }
    {
        match self {
            TextIn::Bytes(bytes) => bytes[place],
            TextIn::Words { words, width: _ } => text_byte(words, place),
        }
    }

    /// How two texts compare by their bytes.
    pub(crate) fn compare(self, other: TextIn) -> Ordering
        requires one { IsWhole self }
        requires other { IsWhole other }
        ensures { result ≡ slice_cmp nat_cmp (bytes_in self.entry) (bytes_in other.entry) }
    {
        let one_len = self.len();
        let other_len = other.len();
        for place in 0..one_len.min(other_len) {
            let order = self.byte(place).cmp(&other.byte(place));
            if order != Ordering::Equal {
                return order;
            }
        }
        one_len.cmp(&other_len)
    }
    /// The same bytes in memory of their own.
    pub(crate) fn copied(self, alloc: Global) -> Result<ShownText, NoMemory>
        requires { IsWhole self }
        ensures { IfOk result (λ text. text ≡ bytes_in self.entry) }
    {
        let mut bytes = Vec::new(alloc);
        for place in 0..self.len() {
            bytes.push(self.byte(place))?;
        }
        Ok(ShownText::of(bytes))
    }
}
