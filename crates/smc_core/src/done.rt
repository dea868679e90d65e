use smc_model::Cause;
use smc_words::Number;

/// The answer of a call that ended.
#[derive(Clone, Copy, Debug, PartialEq, Eq)]
pub enum Done {
    /// The section has begun, at this epoch.
    At {
        epoch: u64,
    },
    /// The section has ended.
    Out,
    /// The epoch is now this one.
    Advanced {
        epoch: u64,
    },
    /// A pass is in a section of another epoch.
    NotYet {
        pass: u32,
        seen: u64,
    },
    /// Another pass has moved the epoch on, to this one.
    Overtaken {
        seen: u64,
    },
    /// The epoch is the last one.
    Spent,
    /// The object was added, in this slot.
    Made {
        slot: u32,
    },
    /// The object was not added, for want of room.
    Full {
        full: Cause,
    },
    /// The object is held, in this slot.
    Here {
        slot: u32,
    },
    /// There is no such object.
    Null,
    Value {
        value: u64,
    },
    Written,
    /// The call removed the object.
    First,
    /// The object was removed before.
    Late,
    /// The scan has begun.
    Begun,
    /// The scan has come to this object.
    Visit {
        number: Number,
        slot: u32,
    },
    /// The scan has ended.
    End,
    /// A round was begun, with so many entries frozen.
    Round {
        coll: u8,
        bound: u64,
        moves: u64,
    },
    /// A round would free no block.
    Nothing {
        coll: u8,
    },
    /// A round was in progress already.
    Busy {
        bound: u64,
        pass: u32,
        coll: u8,
    },
    /// The round has ended, with so many objects moved, left where they were, and found gone.
    Finished {
        moved: u64,
        abandoned: u64,
        gone: u64,
    },
    /// The section is too early to finish the round.
    Early {
        epoch: u64,
        bound: u64,
    },
    /// The round has ended, with nothing moved.
    Cancelled,
    /// The note has this number.
    Noted {
        note: u32,
    },
    Learned,
    Surveyed {
        coll: u8,
        objects: u64,
        blocks: u64,
    },
}
