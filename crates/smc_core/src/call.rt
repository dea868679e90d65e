use smc_model::Record;
use smc_words::Number;

/// A call that a pass may start.
#[derive(Drop)]
pub enum Call {
    /// Begins a section.
    Enter,
    /// Ends the section.
    Leave,
    /// Tries to move the epoch on by one.
    Advance,
    /// Adds an object, its slot and its entry sought from index `from` on.
    Add {
        coll: u8,
        from: u32,
        words: Record,
    },
    /// Looks an object up.
    Look {
        number: Number,
    },
    /// Reads a field of an object that the section holds.
    Read {
        number: Number,
        field: u32,
    },
    /// Writes a field of an object that the section holds.
    Write {
        number: Number,
        field: u32,
        value: u64,
    },
    /// Removes an object that the section holds.
    Remove {
        number: Number,
    },
    /// Begins a scan of a collection.
    Scan {
        coll: u8,
    },
    /// Goes on with a scan to its next object.
    Next {
        scan: u64,
    },
    /// Begins a round of compaction.
    Begin {
        coll: u8,
    },
    /// Finishes the pass's round.
    Finish,
    /// Cancels the pass's round.
    Cancel,
    /// Counts the objects of a collection, and the blocks that they lie in.
    Survey {
        coll: u8,
    },
    /// Copies what the pass has seen, for another pass to learn.
    Note,
    /// Learns the note that another pass has made, by the note's number.
    Learn {
        pass: u32,
        note: u32,
    },
}

/// What a pass does next.
#[derive(Drop)]
pub enum Choice {
    /// The first step of a call.
    Start(Call),
    /// The next step of the call in progress.
    Go,
}
