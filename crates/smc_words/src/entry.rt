ghost use Rattle.std.specs.Prelude.{◌≡◌};
ghost use Rattle.smc_words.specs.Entry.{packed_entry, FitsEntry};

use crate::layout::EPOCHS;

/// The word of an entry: which slot the object with its number is in, and what is being done to it.
///
/// Every word is the word of one entry.
#[derive(Clone, Copy, Debug, PartialEq, Eq)]
pub struct Entry {
    /// How often the entry has been given out.
    pub incarnation: u32,
    /// The index of the object's slot; the stamp, in epochs, of an entry that is free.
    pub payload: u64,
    /// A round means to move the object.
    pub frozen: bool,
    /// The object is being moved; an entry that is free is being claimed.
    pub locked: bool,
    /// The number with this incarnation is null.
    pub gone: bool,
    /// The entry is no object's.
    pub free: bool,
}

impl Entry {
    /// The mark `free`, bit 0.
    pub const FREE: u64 = 1;

    /// The mark `gone`, bit 1.
    pub const GONE: u64 = 2 * Self::FREE;

    /// The mark `locked`, bit 2.
    pub const LOCKED: u64 = 2 * Self::GONE;

    /// The mark `frozen`, bit 3.
    pub const FROZEN: u64 = 2 * Self::LOCKED;

    /// The place value of the payload, bits 4 to 39.
    const PAYLOAD: u64 = 2 * Self::FROZEN;

    /// The place value of the incarnation, bits 40 to 63.
    const INCARNATION: u64 = EPOCHS * Self::PAYLOAD;

    /// The word of this entry.
    pub fn pack(self) -> u64
        requires { FitsEntry self }
        ensures { result ≡ packed_entry self }
    {
        u64::from(self.incarnation) * Self::INCARNATION
            + self.payload * Self::PAYLOAD
            + u64::from(self.frozen) * Self::FROZEN
            + u64::from(self.locked) * Self::LOCKED
            + u64::from(self.gone) * Self::GONE
            + u64::from(self.free) * Self::FREE
    }

    /// The entry of this word.
    pub fn unpack(word: u64) -> Entry
        ensures fits { FitsEntry result }
        ensures packed { packed_entry result ≡ word }
        ensures undoes { (entry : Entry) → FitsEntry entry → packed_entry entry ≡ word
            → result ≡ entry }
    {
        Entry {
            incarnation: (word / Self::INCARNATION) as u32,
            payload: word % Self::INCARNATION / Self::PAYLOAD,
            frozen: word % Self::PAYLOAD >= Self::FROZEN,
            locked: word % Self::FROZEN >= Self::LOCKED,
            gone: word % Self::LOCKED >= Self::GONE,
            free: word % Self::GONE >= Self::FREE,
        }
    }
}

#[cfg(test)]
mod tests {
    use super::*;

    #[test]
    fn an_entry_and_its_word(rt: HostRuntime) {
        let present = Entry {
            incarnation: 1,
            payload: 64,
            frozen: false,
            locked: false,
            gone: false,
            free: false,
        };
        let frozen = Entry {
            frozen: true,
            ..present
        };
        let locked = Entry {
            locked: true,
            ..frozen
        };
        let gone = Entry {
            gone: true,
            ..present
        };
        let free = Entry { free: true, ..gone };
        let words = [
            (present, 1_099_511_628_800),
            (frozen, 1_099_511_628_808),
            (locked, 1_099_511_628_812),
            (gone, 1_099_511_628_802),
            (free, 1_099_511_628_803),
        ];
        for (entry, word) in words {
            assert_eq!(rt; entry.pack(), word, "of {entry:?}");
            assert_eq!(rt; Entry::unpack(word), entry, "at {word}");
        }
    }
}
