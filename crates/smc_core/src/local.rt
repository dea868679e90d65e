ghost use Rattle.std.specs.Prelude.{◌≡◌};

use crate::done::Done;
use crate::phase::Phase;
use crate::section::{FIRST_EPOCH, Section};
use smc_model::{Event, Record};
use smc_words::Number;
use std::collections::LinkedList;

/// How a region begins.
#[derive(Clone, Copy, Debug, PartialEq, Eq)]
pub struct Opening {
    /// Its first epoch, 2 to 2^36 - 2.
    pub epoch: u64,
    /// What counts as the last incarnation used, in every entry, 0 to 2^24 - 1.
    pub incarnation: u32,
}

impl Opening {
    /// The opening with the first epoch, and no incarnation used.
    pub fn plain() -> Opening
        ensures { result ≡ record { epoch = FIRST_EPOCH; incarnation = 0 } }
    {
        Opening {
            epoch: FIRST_EPOCH,
            incarnation: 0,
        }
    }
}

/// A section holds an object in a slot.
#[derive(Clone, Copy)]
pub struct Held {
    pub number: Number,
    pub slot: u32,
}

/// The round that a pass has begun and not yet ended.
#[derive(Clone, Copy)]
pub struct Owned {
    pub bound: u64,
    pub coll: u8,
}

/// A scan of the section.
#[derive(Clone, Copy)]
pub struct Scan {
    /// Its number, which no other scan of any pass has.
    pub number: u64,
    pub coll: u8,
    /// The slots below this one are passed.
    pub place: u32,
    pub ended: bool,
}

/// An answer that a pass keeps, with the length of its log at the end of the call.
#[derive(Clone, Copy)]
pub struct Answer {
    pub length: u64,
    pub done: Done,
}

/// A note that a pass has learnt: which pass made it, and its number there.
#[derive(Clone, Copy)]
pub struct Learnt {
    pub pass: u32,
    pub note: u32,
}

/// Where a pass stands: all that its next step depends on.
#[derive(Drop)]
pub struct Stand {
    pub section: Section,
    pub phase: Phase,
    /// What the section holds, the latest first.
    pub held: LinkedList<Held>,
    /// The scans that the section has begun, in order.
    pub scans: LinkedList<Scan>,
    /// How many scans the pass has begun in all.
    pub begun: u32,
    /// How many notes the pass has made in all.
    pub noted: u32,
    /// The words of the latest add.
    pub words: Record,
    pub round: Option<Owned>,
}

/// What a pass knows. Beside where it stands, it only grows.
#[derive(Drop)]
pub struct Local {
    pub stand: Stand,
    /// What happened, as this pass tells it.
    pub log: LinkedList<Event>,
    pub answers: LinkedList<Answer>,
    /// The notes made, in order: the length of the log at each.
    pub notes: LinkedList<u64>,
    pub learnt: LinkedList<Learnt>,
    /// For each collection the slot behind that of the latest object added.
    pub cursors: LinkedList<u32>,
    /// How many steps the pass has taken.
    pub steps: u64,
}
