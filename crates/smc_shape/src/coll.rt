ghost use Rattle.std.specs.Prelude.{◌≡◌, ℕ, ◌<◌, ◌≤◌, ◌^◌};
ghost use Rattle.smc_shape.specs.Faults.{coll_fault};
ghost use Rattle.smc_shape.specs.Layout.{asked_coll, coll_words};
ghost use Rattle.smc_shape.specs.declared.coll.TheConstants.{MAX_WIDTH};

use crate::fault::ShapeFault;

/// The most words of a record.
pub const MAX_WIDTH: u32 = 64;

/// The slots of a block.
pub const BLOCK_SLOTS: u32 = 64;

/// What is asked of one collection: the size of its records, and room for so many of them.
#[derive(Clone, Copy, Debug, PartialEq, Eq)]
pub struct CollShape {
    /// The words of a record, 1 to 64.
    pub width: u32,
    /// The slots for records, a multiple of 64 above 0. There are as many entries.
    pub slots: u32,
}

impl CollShape {
    /// The first fault of this collection, if it has one.
    pub(crate) fn fault(self) -> Option<ShapeFault>
        ensures { result ≡ coll_fault self }
    {
        if self.width == 0 || self.width > MAX_WIDTH {
            return Some(ShapeFault::Width);
        }
        if self.slots == 0 || self.slots % BLOCK_SLOTS != 0 {
            return Some(ShapeFault::Slots);
        }
        None
    }

    /// The words that this collection takes.
    #[tactic(auto, using(std::proofs::lemmas::Nat::column_fits))]
    pub(crate) fn words(self) -> u64
        requires { self.width ≤ MAX_WIDTH }
        ensures words { result ≡ coll_words (asked_coll self) }
        ensures few { result < 2 ^ 39 }
    {
        let slots = u64::from(self.slots);
        let entries = slots;
        entries + 3 * slots + slots * u64::from(self.width)
    }
}
