ghost use Rattle.std.specs.Prelude.{◌≡◌, if◌then◌else◌};

use crate::Record;
use smc_words::Number;

/// What a collection had none left of, when it refused an object.
#[derive(Clone, Copy, Debug, PartialEq, Eq)]
pub enum Cause {
    Slots,
    Entries,
}

/// What happens in the plain world, as the pass that does it tells it.
#[derive(Debug, Drop)]
pub enum Event {
    /// An object is added under a number that no object had before.
    Add {
        number: Number,
        coll: u8,
        words: Record,
    },
    /// An object is looked up, and is here or not.
    Look {
        number: Number,
        here: bool,
    },
    /// A word is read, also of an object that was removed.
    Read {
        number: Number,
        field: u32,
        value: u64,
    },
    /// A word is written, also to an object that was removed.
    Write {
        number: Number,
        field: u32,
        value: u64,
    },
    /// An object is removed. Only the first to do so hears that it was.
    Remove {
        number: Number,
        first: bool,
    },
    /// A scan of a collection begins, under a number that no other scan has.
    Begin {
        scan: u64,
        coll: u8,
    },
    /// A scan comes to an object.
    Visit {
        scan: u64,
        number: Number,
    },
    /// A scan has come to its end.
    End {
        scan: u64,
    },
    /// A section begins.
    Enter,
    /// A section ends.
    Leave,
    /// The pass was told that another one has come as far as the first `length` events of its log.
    Told {
        pass: u32,
        length: u64,
    },
    /// An object was not added, for want of room.
    Refused {
        coll: u8,
        full: Cause,
    },
}

/// Whether an event fits the world.
#[derive(Clone, Copy, Debug, PartialEq, Eq)]
pub enum Reply {
    Fits,
    Unfit,
}

impl Reply {
    pub(crate) fn of(fits: bool) -> Self
        ensures { result ≡ (if fits then Reply.Fits else Reply.Unfit) }
    {
        if fits { Reply::Fits } else { Reply::Unfit }
    }
}
