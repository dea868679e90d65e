//! What passes tell each other of their logs.
ghost use Rattle.std.specs.Prelude.{◌≡◌, ◌≢◌, length};
ghost use Rattle.smc_region.specs.Callers.{IsPassOf, IsSame};
ghost use Rattle.smc_region.specs.Notes.{IsNoteOf, with_learnt, with_note};

use crate::law::{Learns, Notes, View};
use crate::pass::Pass;
use crate::region::Region;
use atomic_table::Seat;
use std::marker::Model;

/// The log of a pass as it was when the note was made, for one other pass to learn. It may go to another thread, and
/// nothing is lost where it is dropped. Contracts see it as its table, the pass, its number there and the log.
#[derive(Drop)]
pub struct Note {
    pass: u32,
    seat: Seat<(), View>,
}

impl Model for Note {
    ghost use Rattle.smc_region.specs.Notes.{IsNoteSeat, Noted, noted_of};

    ghost Value = { Noted };

    ghost view = { λ n. noted_of n.pass n.seat.table_id n.seat.me };

    ghost invariant = { λ n. IsNoteSeat n.pass n.seat.me };
}

impl Note {
    /// The number of the pass that made it.
    pub fn pass(&self) -> u32
        ensures { result ≡ self.now.pass }
    {
        self.pass
    }
}

impl Pass {
    /// A note of what the pass has seen, for another pass. Takes one load of the epoch.
    pub fn note(&mut self, region: &Region) -> Note
        requires here { IsPassOf region.now self.old }
        ensures same { IsSame self.old self.new }
        ensures noted { self.new.local ≡ with_note self.old.local }
        ensures table { IsNoteOf region.now result }
        ensures pass { result.pass ≡ self.old.number }
        ensures number { result.number ≡ length self.old.local.notes }
        ensures log { result.log ≡ self.old.local.log }
    {
        let board = &region.table.shared;
        let seat = board.split_seat::<Notes>(&mut self.seat);
        Note {
            pass: self.number,
            seat,
        }
    }

    /// Learns what another pass has seen, by its note. Takes one load of the epoch.
    pub fn learn(&mut self, region: &Region, note: Note)
        requires here { IsPassOf region.now self.old }
        requires note { IsNoteOf region.now note }
        requires other { note.pass ≢ self.old.number }
        ensures same { IsSame self.old self.new }
        ensures learnt { self.new.local ≡ with_learnt self.old.local note }
    {
        let Note { pass: _, seat } = note;
        let board = &region.table.shared;
        board.join_seat::<Learns>(&mut self.seat, seat);
    }
}
