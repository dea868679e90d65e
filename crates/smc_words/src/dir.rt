ghost use Rattle.std.specs.Prelude.{◌≡◌, ◌≢◌, IfSome, IfNone};
ghost use Rattle.smc_words.specs.Dir.{packed_dir, FitsDir};

use crate::layout::EPOCHS;

/// The directory word of a slot: what is in the slot.
#[derive(Clone, Copy, Debug, PartialEq, Eq)]
pub enum Dir {
    /// Nothing.
    Free,
    /// An object that an add is writing.
    Claimed,
    /// The copy of an object that a round means to move here.
    Incoming,
    /// An object, until its removal or its move away is done.
    Valid,
    /// What an object left behind. The stamp, in epochs, says when the slot may be used again.
    Limbo(u64),
}

impl Dir {
    // The kinds, bits 0 to 2.
    const FREE: u64 = 0;

    const CLAIMED: u64 = 1;

    const INCOMING: u64 = 2;

    const VALID: u64 = 3;

    const LIMBO: u64 = 4;

    /// The place value of the stamp, bits 3 to 38.
    const STAMP: u64 = 8;

    /// The word that says so.
    pub fn pack(self) -> u64
        requires { FitsDir self }
        ensures { result ≡ packed_dir self }
    {
        match self {
            Dir::Free => Self::FREE,
            Dir::Claimed => Self::CLAIMED,
            Dir::Incoming => Self::INCOMING,
            Dir::Valid => Self::VALID,
            Dir::Limbo(stamp) => stamp * Self::STAMP + Self::LIMBO,
        }
    }

    /// What this word says, where it is a directory word.
    pub fn unpack(word: u64) -> Option<Dir>
        ensures some { IfSome result (λ dir. FitsDir dir × packed_dir dir ≡ word) }
        ensures none { IfNone result ((dir : Dir) → FitsDir dir → packed_dir dir ≢ word) }
        ensures undoes { (dir : Dir) → FitsDir dir → packed_dir dir ≡ word → result ≡ Some dir }
    {
        match word {
            Self::FREE => Some(Dir::Free),
            Self::CLAIMED => Some(Dir::Claimed),
            Self::INCOMING => Some(Dir::Incoming),
            Self::VALID => Some(Dir::Valid),
            _ => {
                let stamp = word / Self::STAMP;
                if word % Self::STAMP == Self::LIMBO && stamp < EPOCHS {
                    Some(Dir::Limbo(stamp))
                } else {
                    None
                }
            }
        }
    }
}

#[cfg(test)]
mod tests {
    use super::*;

    #[test]
    fn a_stamp_stands_above_the_kind(rt: HostRuntime) {
        assert_eq!(rt; Dir::Limbo(3).pack(), 28);
        assert_eq!(rt; Dir::unpack(28), Some(Dir::Limbo(3)));
    }

    #[test]
    fn five_kinds_and_no_more(rt: HostRuntime) {
        let kinds = [
            (0, Some(Dir::Free)),
            (1, Some(Dir::Claimed)),
            (2, Some(Dir::Incoming)),
            (3, Some(Dir::Valid)),
            (4, Some(Dir::Limbo(0))),
            (5, None),
            (11, None),
        ];
        for (word, dir) in kinds {
            assert_eq!(rt; Dir::unpack(word), dir, "at {word}");
        }
    }
}
