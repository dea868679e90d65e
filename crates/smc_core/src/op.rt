use crate::kind::Kind;
use crate::word::Word;
use smc_shape::Place;

/// One atomic operation on one word.
#[derive(Clone, Copy)]
pub enum Op {
    Load {
        place: Place,
    },
    Store {
        place: Place,
        word: Word,
    },
    /// Puts a word where another one is expected.
    Exchange {
        place: Place,
        expect: Word,
        put: Word,
    },
    /// Sets the mark that an entry's object is gone.
    MarkGone {
        coll: u8,
        entry: u32,
    },
}

/// A step that a pass may take: its kind and its operation.
#[derive(Clone, Copy)]
pub struct Offer {
    pub kind: Kind,
    pub op: Op,
}
