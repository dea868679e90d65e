ghost use Rattle.std.specs.Prelude.{◌≡◌};
ghost use Rattle.smc_core.specs.Words.{plain_of, round_of, state_of, dir_of, back_of, forward_of, same_mark, same_number, same_back, same_round, same_dir, same_state, same_word};

use smc_words::{Dir, Number, RoundWord};

/// What the word of an entry says.
#[derive(Clone, Copy)]
pub enum State {
    /// No object's. The stamp, in epochs, says when it may be claimed; the incarnation is the last one used.
    Free {
        incarnation: u32,
        stamp: u64,
    },
    /// Claimed by an add, which has not yet made its object.
    Claimed {
        incarnation: u32,
    },
    /// The object is in the slot.
    Present {
        incarnation: u32,
        slot: u32,
    },
    /// The object is in the slot, and a round means to move it.
    Frozen {
        incarnation: u32,
        slot: u32,
    },
    /// The object is being moved away from the slot.
    Locked {
        incarnation: u32,
        slot: u32,
    },
    /// The object was removed from the slot, with these marks of a round.
    Removed {
        incarnation: u32,
        slot: u32,
        frozen: bool,
        locked: bool,
    },
}

/// What a word of the row says, by what its place is for.
#[derive(Clone, Copy)]
pub enum Word {
    /// An epoch, or the field of a record: a number as it is.
    Plain(u64),
    /// The round in progress.
    Round(Option<RoundWord>),
    /// The state of an entry.
    Entry(State),
    /// What is in a slot.
    Directory(Dir),
    /// The object that owns a slot.
    Back(Option<Number>),
    /// The slot that an object is to move to.
    Forward(u32),
}

impl State {
    fn same(self, other: State) -> bool
        ensures { result ≡ same_state self other }
    {
        match (self, other) {
            (
                State::Free { incarnation, stamp },
                State::Free {
                    incarnation: a,
                    stamp: s,
                },
            ) => incarnation == a && stamp == s,
            (State::Claimed { incarnation }, State::Claimed { incarnation: a }) => incarnation == a,
            (
                State::Present { incarnation, slot },
                State::Present {
                    incarnation: a,
                    slot: s,
                },
            )
            | (
                State::Frozen { incarnation, slot },
                State::Frozen {
                    incarnation: a,
                    slot: s,
                },
            )
            | (
                State::Locked { incarnation, slot },
                State::Locked {
                    incarnation: a,
                    slot: s,
                },
            ) => incarnation == a && slot == s,
            (
                State::Removed {
                    incarnation,
                    slot,
                    frozen,
                    locked,
                },
                State::Removed {
                    incarnation: a,
                    slot: s,
                    frozen: f,
                    locked: l,
                },
            ) => incarnation == a && slot == s && same_mark(frozen, f) && same_mark(locked, l),
            _ => false,
        }
    }
}

impl Word {
    /// The number, where it is one as it is.
    pub fn plain(self) -> u64
        ensures { result ≡ plain_of self }
    {
        match self {
            Word::Plain(number) => number,
            _ => 0,
        }
    }

    /// The round, where it tells one.
    pub fn round(self) -> Option<RoundWord>
        ensures { result ≡ round_of self }
    {
        match self {
            Word::Round(round) => round,
            _ => None,
        }
    }

    /// The state, where it is the word of an entry.
    pub fn state(self) -> State
        ensures { result ≡ state_of self }
    {
        match self {
            Word::Entry(state) => state,
            _ => State::Claimed { incarnation: 0 },
        }
    }

    /// What is in the slot, where it is the word of a directory.
    pub fn dir(self) -> Dir
        ensures { result ≡ dir_of self }
    {
        match self {
            Word::Directory(dir) => dir,
            _ => Dir::Claimed,
        }
    }

    /// The owner, where it names one.
    pub fn back(self) -> Option<Number>
        ensures { result ≡ back_of self }
    {
        match self {
            Word::Back(number) => number,
            _ => None,
        }
    }

    /// The target, where it is the word of a move.
    pub fn forward(self) -> u32
        ensures { result ≡ forward_of self }
    {
        match self {
            Word::Forward(slot) => slot,
            _ => 0,
        }
    }

    /// Whether the two words are the same.
    pub fn same(self, other: Word) -> bool
        ensures { result ≡ same_word self other }
    {
        match (self, other) {
            (Word::Plain(a), Word::Plain(b)) => a == b,
            (Word::Round(a), Word::Round(b)) => same_round(a, b),
            (Word::Entry(a), Word::Entry(b)) => a.same(b),
            (Word::Directory(a), Word::Directory(b)) => same_dir(a, b),
            (Word::Back(a), Word::Back(b)) => same_back(a, b),
            (Word::Forward(a), Word::Forward(b)) => a == b,
            _ => false,
        }
    }
}

fn same_mark(a: bool, b: bool) -> bool
    ensures { result ≡ same_mark a b }
{
    if a { b } else { !b }
}

fn same_dir(a: Dir, b: Dir) -> bool
    ensures { result ≡ same_dir a b }
{
    match (a, b) {
        (Dir::Free, Dir::Free)
        | (Dir::Claimed, Dir::Claimed)
        | (Dir::Incoming, Dir::Incoming)
        | (Dir::Valid, Dir::Valid) => true,
        (Dir::Limbo(s), Dir::Limbo(t)) => s == t,
        _ => false,
    }
}

fn same_back(a: Option<Number>, b: Option<Number>) -> bool
    ensures { result ≡ same_back a b }
{
    match (a, b) {
        (None, None) => true,
        (Some(a), Some(b)) => same_number(a, b),
        _ => false,
    }
}

fn same_round(a: Option<RoundWord>, b: Option<RoundWord>) -> bool
    ensures { result ≡ same_round a b }
{
    match (a, b) {
        (None, None) => true,
        (Some(a), Some(b)) => a.bound == b.bound && a.pass == b.pass && a.coll == b.coll,
        _ => false,
    }
}

fn same_number(a: Number, b: Number) -> bool
    ensures { result ≡ same_number a b }
{
    a.incarnation == b.incarnation && a.entry == b.entry && a.coll == b.coll
}
