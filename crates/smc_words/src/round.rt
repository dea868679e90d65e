ghost use Rattle.std.specs.Prelude.{◌≡◌, ◌≢◌, IfSome, IfNone};
ghost use Rattle.smc_words.specs.RoundWord.{packed_round, FitsRound};

use crate::layout::{COLLECTIONS, EPOCHS, PASSES};

/// The round word of a region while a round compacts one of its collections.
#[derive(Clone, Copy, Debug, PartialEq, Eq)]
pub struct RoundWord {
    /// The last epoch, from 1, whose sections meet no object in the middle of a move.
    pub bound: u64,
    /// The pass that began the round, from 0.
    pub pass: u32,
    /// The collection that is compacted, from 0.
    pub coll: u8,
}

impl RoundWord {
    /// The round word while there is no round.
    pub const NONE: u64 = 0;

    /// The place value of the pass, bits 36 to 40. The bound is bits 0 to 35.
    const PASS: u64 = EPOCHS;

    /// The place value of the collection, bits 41 to 48.
    const COLL: u64 = PASSES as u64 * Self::PASS;

    /// The word of this round.
    pub fn pack(self) -> u64
        requires { FitsRound self }
        ensures { result ≡ packed_round self }
    {
        u64::from(self.coll) * Self::COLL + u64::from(self.pass) * Self::PASS + self.bound
    }

    /// The round of this word, where it is the word of one.
    pub fn unpack(word: u64) -> Option<RoundWord>
        ensures some { IfSome result (λ round. FitsRound round × packed_round round ≡ word) }
        ensures none { IfNone result ((round : RoundWord) → FitsRound round
            → packed_round round ≢ word) }
        ensures undoes { (round : RoundWord) → FitsRound round → packed_round round ≡ word
            → result ≡ Some round }
    {
        let bound = word % Self::PASS;
        let coll = word / Self::COLL;
        if bound == 0 || coll >= u64::from(COLLECTIONS) {
            return None;
        }
        Some(RoundWord {
            bound,
            pass: (word % Self::COLL / Self::PASS) as u32,
            coll: coll as u8,
        })
    }
}

#[cfg(test)]
mod tests {
    use super::*;

    // One pass is 2^36 = 68719476736, one collection 2^41 = 2199023255552.
    #[test]
    fn a_round_and_its_word(rt: HostRuntime) {
        let round = RoundWord {
            bound: 3,
            pass: 1,
            coll: 1,
        };
        assert_eq!(rt; round.pack(), 2_267_742_732_291);
        assert_eq!(rt; RoundWord::unpack(2_267_742_732_291), Some(round));
    }

    #[test]
    fn a_round_has_a_bound(rt: HostRuntime) {
        assert_eq!(rt; RoundWord::unpack(RoundWord::NONE), None);
        assert_eq!(rt; RoundWord::unpack(2_267_742_732_288), None);
    }
}
