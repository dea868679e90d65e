//! The region that threads share, and one step on it.
ghost use Rattle.std.specs.Prelude.{◌≡◌, Some};
ghost use Rattle.smc_shape.specs.Layout.{IsShape, words_of};
ghost use Rattle.smc_core.specs.Row.{OpFits};
ghost use Rattle.smc_region.specs.Choices.{seat_choice};
ghost use Rattle.smc_region.specs.Reached.{From, RestsOn, Saw};
ghost use Rattle.smc_region.specs.Rule.{IsOwn};
ghost use Rattle.smc_region.specs.Views.{IsAlone, view_after, view_op};

use crate::chosen::Chosen;
use crate::law::{About, Acts, Choosing, Law, View};
use atomic_table::{Seat, Table};
use smc_core::{Op, Word};
use smc_row::{packed, unpacked};
use smc_shape::{Place, Shape};
use smc_words::Entry;
use std::alloc::Global;
use std::marker::Brand;

/// A region of words, which the passes that were opened with it step on.
#[derive(Drop)]
pub struct Region {
    pub(crate) table: Table<(), View, About, Law, Global>,
    pub(crate) about: About,
    pub ghost sized: { table.shared.table_id.words ≡ words_of about.shape },
    pub ghost no_slots: { table.shared.table_id.slots ≡ 0 },
    pub ghost keyed: { table.shared.key ≡ about },
    pub ghost valid: { IsShape about.shape },
}

impl Region {
    /// What the region is made of.
    pub fn shape(&self) -> &Shape
        ensures { result.now ≡ self.now.about.shape }
    {
        &self.about.shape
    }
}

/// The operation on the table, which is the one that the seat offers for the choice of `C`.
#[inline(always)]
fn step_as<C: Choosing>(
    region: &Region,
    seat: &mut Seat<(), View>,
    chosen: Chosen<'_>,
    op: Op,
) -> Word
    requires chosen { C.choice ≡ seat_choice seat.old.me.0 chosen }
    requires named { C.op ≡ op }
    requires own { IsOwn (seat_choice seat.old.me.0 chosen) }
    requires here { seat.old.table_id ≡ region.now.table.shared.table_id }
    requires shape { seat.old.me.0.shape ≡ region.now.about.shape }
    requires valid { IsShape region.now.about.shape }
    requires fits { OpFits region.now.about.shape op }
    requires alone { IsAlone seat.old.me }
    requires offers { view_op seat.old.me.0 (seat_choice seat.old.me.0 chosen) ≡ Some op }
    ensures same { (seat.new.table_id ≡ seat.old.table_id) × (seat.new.id ≡ seat.old.id) }
    ensures after { seat.new.me ≡ (view_after (seat_choice seat.old.me.0 chosen.entry) 0 result seat.old.me.0, seat.old.me.1) }
    ensures saw { Saw seat.old.me.0 op result }
    ensures stands { From seat.new.me.0 }
{
    let board = &region.table.shared;
    let shape = &region.about.shape;
    match op {
        Op::Load { place } => {
            let found = board.load::<Acts<C>>(seat, shape.at(place));
            unpacked(place, found)
        }
        Op::Store { place, word } => {
            board.store::<Acts<C>>(seat, shape.at(place), packed(word));
            Word::Plain(0)
        }
        Op::Exchange { place, expect, put } => {
            let expect = packed(expect);
            let put = packed(put);
            let found = board.compare_exchange::<Acts<C>>(seat, shape.at(place), expect, put);
            unpacked(place, found)
        }
        Op::MarkGone { coll, entry } => {
            let place = Place::Entry { coll, entry };
            let found = board.fetch_or::<Acts<C>>(seat, shape.at(place), Entry::GONE);
            unpacked(place, found)
        }
    }
}

/// One atomic step: the operation that the pass of the seat offers for its choice. Answers the word that it was shown.
#[inline(always)]
pub(crate) fn step(region: &Region, seat: &mut Seat<(), View>, chosen: Chosen<'_>, op: Op) -> Word
    requires own { IsOwn (seat_choice seat.old.me.0 chosen) }
    requires here { seat.old.table_id ≡ region.now.table.shared.table_id }
    requires shape { seat.old.me.0.shape ≡ region.now.about.shape }
    requires rests { RestsOn seat.old.me.0 op }
    requires alone { IsAlone seat.old.me }
    requires offers { view_op seat.old.me.0 (seat_choice seat.old.me.0 chosen) ≡ Some op }
    ensures same { (seat.new.table_id ≡ seat.old.table_id) × (seat.new.id ≡ seat.old.id) }
    ensures after { seat.new.me ≡ (view_after (seat_choice seat.old.me.0 chosen.entry) 0 result seat.old.me.0, seat.old.me.1) }
    ensures offered { view_op seat.old.me.0 (seat_choice seat.old.me.0 chosen.entry) ≡ Some op }
    ensures saw { Saw seat.old.me.0 op result }
    ensures stands { From seat.new.me.0 }
{
    step_as::<Brand>(region, seat, chosen, op)
}
