ghost use Rattle.std.specs.Prelude.{◌≡◌, ◌≢◌, IfSome, IfNone};
ghost use Rattle.smc_words.specs.Number.{packed_number, FitsNumber};

use crate::layout::{COLLECTIONS, ENTRIES, INCARNATIONS};

/// The number of an object, which is given to at most one object, ever.
///
/// It names a collection, an entry of its table of entries, and the incarnation of that entry. An entry that is used
/// again gets the next incarnation, so the number of a removed object stays null for good.
#[derive(Clone, Copy, Debug, PartialEq, Eq, PartialOrd, Ord, Hash)]
pub struct Number {
    /// How often the entry has been given out, from 1.
    pub incarnation: u32,
    /// The index of the entry in its collection, from 0.
    pub entry: u32,
    /// The collection, from 0.
    pub coll: u8,
}

impl Number {
    /// The word of a reference to no object.
    pub const NULL: u64 = 0;

    /// The place value of the entry, bits 8 to 35. The collection is bits 0 to 7.
    const ENTRY: u64 = COLLECTIONS as u64;

    /// The place value of the incarnation, bits 36 to 59.
    const INCARNATION: u64 = ENTRIES as u64 * Self::ENTRY;

    /// The word of this number.
    pub fn pack(self) -> u64
        requires { FitsNumber self }
        ensures { result ≡ packed_number self }
    {
        u64::from(self.incarnation) * Self::INCARNATION
            + u64::from(self.entry) * Self::ENTRY
            + u64::from(self.coll)
    }

    /// The number of this word, where an object can have it.
    pub fn unpack(word: u64) -> Option<Number>
        ensures some { IfSome result (λ number. FitsNumber number × packed_number number ≡ word) }
        ensures none { IfNone result ((number : Number) → FitsNumber number
            → packed_number number ≢ word) }
        ensures undoes { (number : Number) → FitsNumber number → packed_number number ≡ word
            → result ≡ Some number }
    {
        let incarnation = word / Self::INCARNATION;
        if incarnation == 0 || incarnation >= u64::from(INCARNATIONS) {
            return None;
        }
        Some(Number {
            incarnation: incarnation as u32,
            entry: (word % Self::INCARNATION / Self::ENTRY) as u32,
            coll: (word % Self::ENTRY) as u8,
        })
    }
}

#[cfg(test)]
mod tests {
    use super::*;

    #[test]
    fn a_number_and_its_word(rt: HostRuntime) {
        let number = Number {
            incarnation: 1,
            entry: 64,
            coll: 0,
        };
        assert_eq!(rt; number.pack(), 68_719_493_120);
        assert_eq!(rt; Number::unpack(68_719_493_120), Some(number));
    }

    #[test]
    fn no_number_is_null(rt: HostRuntime) {
        assert_eq!(rt; Number::unpack(Number::NULL), None);
    }
}
