//! What a caller chooses to do next.
use smc_words::Number;

/// A choice of a pass. Every variant but `Go`, which goes on with the call in progress, starts that call.
#[derive(Clone, Copy)]
pub enum Chosen<'a> {
    Go,
    Enter,
    Leave,
    Advance,
    Add {
        coll: u8,
        from: u32,
        words: &'a [u64],
    },
    Look {
        number: Number,
    },
    Read {
        number: Number,
        field: u32,
    },
    Write {
        number: Number,
        field: u32,
        value: u64,
    },
    Remove {
        number: Number,
    },
    Scan {
        coll: u8,
    },
    /// Goes on with a scan, by its place among those that the section has begun, from 0.
    Next {
        scan: u32,
    },
    Begin {
        coll: u8,
    },
    Finish,
    Cancel,
    Survey {
        coll: u8,
    },
    Note,
    Learn {
        pass: u32,
        note: u32,
    },
}
