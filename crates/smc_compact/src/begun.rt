//! A round, and how a begin ends.
ghost use Rattle.std.specs.Prelude.{◌≡◌, ◌+◌, ◌≤◌};
ghost use Rattle.smc_core.specs.declared.section.TheConstants.{LAST_EPOCH};

use smc_words::RoundWord;

/// A round that a pass has begun. It is to be finished or cancelled: it cannot be dropped.
pub struct Round {
    /// The epoch behind that in which it was begun. From two above it on, no section is left that does not know of it.
    pub(crate) bound: u64,
    pub(crate) coll: u8,
    /// How many objects are to move.
    pub(crate) moves: u32,
    pub ghost low: { bound ≤ LAST_EPOCH + 1 },
}

impl Round {
    /// The round can be finished in a section whose epoch is at least two above this one.
    pub fn bound(&self) -> u64
        ensures { result ≡ self.now.bound }
    {
        self.bound
    }
}

/// How a begin ended.
pub enum Begun {
    /// A round was begun.
    Round(Round),
    /// The objects lie in no more blocks than they need.
    Nothing,
    /// There was a round already.
    Busy { seen: RoundWord },
}
