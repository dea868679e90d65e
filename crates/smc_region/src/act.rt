//! A step by numbers.
ghost use Rattle.std.specs.Prelude.{◌≡◌, ◌<◌, ℕ, IfSome, Some, length};
ghost use Rattle.smc_core.specs.declared.op.Op.{Op};
ghost use Rattle.smc_core.specs.Local.{after};
ghost use Rattle.smc_core.specs.Row.{OpFits, shown};
ghost use Rattle.smc_shape.specs.Layout.{IsShape};
ghost use Rattle.smc_shape.specs.Places.{InRange, at};
ghost use Rattle.smc_shape.specs.declared.place.Place.TheVariants as place;
ghost use Rattle.smc_region.specs.Acts.{IsOfKind, act_by, act_in, offered_act, offered_op, op_in};
ghost use Rattle.smc_region.specs.Callers.{IsSame};
ghost use Rattle.smc_region.specs.Choices.{choice_of, seat_choice};
ghost use Rattle.smc_region.specs.Reached.{From, Showed};
ghost use Rattle.smc_region.specs.Rule.{IsOwn};
ghost use Rattle.smc_region.specs.Sections.{IsWithin, MayBegin, cursors_by};
ghost use Rattle.smc_region.specs.Views.{IsAlone, one, sole_offer, view_after, view_op};

use crate::chosen::Chosen;
use crate::law::{Acts, Choosing, View};
use crate::region::Region;
use crate::section::{Section, move_behind, scans_with};
use atomic_table::Seat;
use smc_core::{Deed, Kind, State};
use smc_row::unpacked;
use smc_shape::{Place, Shape};
use smc_words::Entry;
use std::marker::Brand;

/// One atomic step as numbers. A field that its kind does not use is 0.
#[derive(Clone, Copy)]
pub struct Act {
    pub kind: Kind,
    /// The index of its word in the row of the region.
    pub word: usize,
    /// The number that an exchange expects there.
    pub expect: u64,
    /// The number that a store or an exchange puts there. The mark of a removal goes with its kind.
    pub put: u64,
}

/// The operation on the table as numbers.
#[inline(always)]
fn step_by_as<C: Choosing>(
    region: &Region,
    seat: &mut Seat<(), View>,
    chosen: Chosen<'_>,
    act: Act,
) -> u64
    requires chosen { C.choice ≡ seat_choice seat.old.me.0 chosen }
    requires is { act ≡ act_by region.now.about.shape act.kind C.op }
    requires deed { IsOfKind act.kind C.op }
    requires own { IsOwn (seat_choice seat.old.me.0 chosen) }
    requires here { seat.old.table_id ≡ region.now.table.shared.table_id }
    requires shape { seat.old.me.0.shape ≡ region.now.about.shape }
    requires fits { OpFits region.now.about.shape C.op }
    requires alone { IsAlone seat.old.me }
    requires offers { view_op seat.old.me.0 (seat_choice seat.old.me.0 chosen) ≡ Some C.op }
    ensures same { (seat.new.table_id ≡ seat.old.table_id) × (seat.new.id ≡ seat.old.id) }
    ensures after { seat.new.me ≡ (view_after (seat_choice seat.old.me.0 chosen.entry) 0 (shown C.op result) seat.old.me.0, seat.old.me.1) }
    ensures showed { Showed seat.old.me.0 C.op result }
    ensures stands { From seat.new.me.0 }
{
    let board = &region.table.shared;
    match act.kind.deed() {
        Deed::Load => board.load::<Acts<C>>(seat, act.word),
        Deed::Store => {
            board.store::<Acts<C>>(seat, act.word, act.put);
            0
        }
        Deed::Exchange => board.compare_exchange::<Acts<C>>(seat, act.word, act.expect, act.put),
        Deed::Mark => board.fetch_or::<Acts<C>>(seat, act.word, Entry::GONE),
    }
}

/// One atomic step by numbers: what the pass of the seat offers for its choice. Answers the number that it was shown.
#[inline(always)]
fn step_by(region: &Region, seat: &mut Seat<(), View>, chosen: Chosen<'_>, act: Act) -> u64
    requires own { IsOwn (seat_choice seat.old.me.0 chosen) }
    requires here { seat.old.table_id ≡ region.now.table.shared.table_id }
    requires shape { seat.old.me.0.shape ≡ region.now.about.shape }
    requires from { From seat.old.me.0 }
    requires alone { IsAlone seat.old.me }
    requires offers { act_in seat.old.me.0.shape (sole_offer seat.old.me.0 (seat_choice seat.old.me.0 chosen)) ≡ Some act }
    ensures same { (seat.new.table_id ≡ seat.old.table_id) × (seat.new.id ≡ seat.old.id) }
    ensures after { seat.new.me ≡ (
      view_after (seat_choice seat.old.me.0 chosen.entry) 0
          (shown (op_in (sole_offer seat.old.me.0 (seat_choice seat.old.me.0 chosen.entry))) result) seat.old.me.0,
      seat.old.me.1,
    ) }
    ensures showed { Showed seat.old.me.0 (op_in (sole_offer seat.old.me.0 (seat_choice seat.old.me.0 chosen.entry))) result }
    ensures stands { From seat.new.me.0 }
{
    step_by_as::<Brand>(region, seat, chosen, act)
}

/// The collection that has its entry at this index.
fn coll_at(shape: &Shape, word: usize) -> Option<u8>
    ensures here { (c e : ℕ) → InRange shape.now (place.Entry c e) → word ≡ at shape.now (place.Entry c e) → result ≡ Some c }
    ensures within { IfSome result (λ c. c < length shape.now.colls) }
{
    let _ = shape.passes();
    for c in 0..shape.colls() {
        let coll = c as u8;
        let entries = shape.entries(coll);
        if entries > 0 {
            let first = shape.entry_at(coll, 0);
            if first <= word && word - first < entries as usize {
                return Some(coll);
            }
        }
    }
    None
}

/// The cursors after a step by numbers.
#[inline(always)]
fn move_cursor_by(shape: &Shape, cursors: &mut Box<Vec<u32>>, act: Act)
    requires long { length cursors.old.value.items ≡ length shape.now.colls }
    ensures moved { (op : Op) → OpFits shape.now op → act ≡ act_by shape.now act.kind op → IsOfKind act.kind op
        → cursors.new.value.items ≡ cursors_by shape.now cursors.old.value.items op }
    ensures long { length cursors.new.value.items ≡ length cursors.old.value.items }
{
    let Kind::StoreLive = act.kind else {
        return;
    };
    let Some(coll) = coll_at(shape, act.word) else {
        return;
    };
    let entry = Place::Entry { coll, entry: 0 };
    if let State::Present { slot, .. } = unpacked(entry, act.put).state() {
        move_behind(shape, cursors, coll, slot);
    }
}

impl<'r> Section<'r> {
    /// One atomic step by numbers: the one that the pass offers for this choice. Answers the number that a load, an
    /// exchange or a mark found, and 0 for a store. `take` is the same step, typed; this one is for a caller that has the
    /// index of a word already, as of the fields of an object.
    #[inline(always)]
    pub fn act(&mut self, chosen: Chosen<'_>, act: Act) -> u64
        requires within { IsWithin (choice_of self.old.local.stand.scans chosen) }
        requires offered { offered_act self.old (choice_of self.old.local.stand.scans chosen) ≡ Some act }
        requires scans { MayBegin (length self.old.local.stand.scans) chosen }
        ensures same { IsSame self.old self.new }
        ensures after { self.new.local ≡ after self.old.shape self.old.number self.old.local (choice_of self.old.local.stand.scans chosen.entry) 0
            (shown (offered_op self.old (choice_of self.old.local.stand.scans chosen.entry)) result) }
        ensures showed { Showed (one self.old.shape self.old.number self.old.local) (offered_op self.old (choice_of self.old.local.stand.scans chosen.entry)) result }
        ensures fits { OpFits self.old.shape (offered_op self.old (choice_of self.old.local.stand.scans chosen.entry)) }
    {
        let number = step_by(self.region, &mut self.seat, chosen, act);
        self.scans = scans_with(self.scans, chosen);
        move_cursor_by(&self.region.about.shape, &mut self.cursors, act);
        number
    }
}
