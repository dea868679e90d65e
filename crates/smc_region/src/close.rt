//! A region is closed, with all its passes.
ghost use Rattle.std.specs.Prelude.{◌≡◌, ◌<◌, slice_index};
ghost use Rattle.smc_shape.specs.Layout.{words_of};
ghost use Rattle.smc_region.specs.Ends.{AreAll, locals_of};
ghost use Rattle.smc_region.specs.Reached.{IsReached};

use crate::law::{About, Gather, View};
use crate::pass::Pass;
use crate::region::Region;
use atomic_table::{Closed, Seat};
use smc_shape::Shape;
use std::alloc::Global;
use std::marker::Model;
use std::snapshot::Snapshot;

/// A region that no thread steps on any more. Contracts see it as its words and what its passes know.
pub struct Quiet {
    about: About,
    closed: Closed<(), Global>,
    last: Snapshot<Seat<(), View>>,
}

impl Model for Quiet {
    ghost use Rattle.std.specs.Prelude.{◌≡◌};
    ghost use Rattle.std.specs.Slots.{slots_items, slots_len, IsFull};
    ghost use Rattle.smc_shape.specs.Layout.{words_of};
    ghost use Rattle.smc_region.specs.Ends.{Ended, states_of};
    ghost use Rattle.smc_region.specs.Reached.{IsReached};

    ghost Value = { Ended };

    ghost view = { λ q. record { shape = q.about.shape; opening = q.about.opening; words = slots_items q.closed.words; locals = states_of q.last.value.me.0.locals } };

    ghost invariant = { λ q. IsFull q.closed.words × IsFull q.closed.slots × (slots_len q.closed.words ≡ words_of q.about.shape) × (slots_len q.closed.slots ≡ 0)
        × IsReached q.about.shape q.about.opening (slots_items q.closed.words) (states_of q.last.value.me.0.locals) };
}

impl Region {
    /// Closes the region. Its words, and what its passes know, are one state that the machine reaches.
    pub fn close(self, mut passes: Vec<Pass>) -> Quiet
        requires all { AreAll self passes.items }
        ensures shape { result.shape ≡ self.about.shape }
        ensures opening { result.opening ≡ self.about.opening }
        ensures locals { result.locals ≡ locals_of passes.items }
        ensures reached { IsReached result.shape result.opening result.words result.locals }
    {
        let _ = self.about.shape.passes();
        let Region { table, about } = self;
        let Some(last) = passes.pop() else {
            unreachable!()
        };
        let Pass {
            number: _,
            cursors: _,
            mut seat,
        } = last;
        while let Some(pass) = passes.pop() {
            let Pass {
                number: _,
                cursors: _,
                seat: other,
            } = pass;
            table.shared.join_seat::<Gather>(&mut seat, other);
        }
        let last = Snapshot::of(&seat);
        let closed = table.close_with(seat);
        Quiet {
            about,
            closed,
            last,
        }
    }
}

impl Quiet {
    /// What the region is made of.
    pub fn shape(&self) -> &Shape
        ensures shape { result.now ≡ self.now.shape }
        ensures reached { IsReached self.now.shape self.now.opening self.now.words self.now.locals }
    {
        &self.about.shape
    }

    /// The word with this index.
    pub fn word(&self, i: usize) -> u64
        requires { i < words_of self.now.shape }
        ensures { result ≡ slice_index self.now.words i }
    {
        self.closed.word(i)
    }

    /// Gives the memory back.
    pub fn free(self) {
        let Quiet {
            about: _,
            closed,
            last: _,
        } = self;
        closed.free();
    }
}
