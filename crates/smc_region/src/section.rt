//! A pass inside a section.
ghost use Rattle.std.specs.Prelude.{◌≡◌, ◌<◌, ◌≤◌, Some, length, slice_get, slice_set};
ghost use Rattle.smc_shape.specs.Layout.{slots_of};
ghost use Rattle.smc_core.specs.Ripe.{next_round};
ghost use Rattle.smc_core.specs.declared.phase.Phase.TheVariants.{Idle};
ghost use Rattle.smc_core.specs.declared.section.Section.TheVariants.{Inside};
ghost use Rattle.smc_core.specs.declared.section.TheConstants.{LAST_EPOCH};
ghost use Rattle.smc_core.specs.Local.{after};
ghost use Rattle.smc_core.specs.Machine.{local_offer};
ghost use Rattle.smc_core.specs.Row.{OpFits};
ghost use Rattle.smc_core.specs.Section.{epoch_of, is_calm};
ghost use Rattle.smc_region.specs.Callers.{IsPassOf, IsSame, left};
ghost use Rattle.smc_region.specs.Choices.{choice_of};
ghost use Rattle.smc_region.specs.Reached.{From, Saw, Took};
ghost use Rattle.smc_region.specs.Sections.{IsWithin, MayBegin, scans_with, cursors_by};
ghost use Rattle.smc_region.specs.Views.{one, op_of};

use crate::chosen::Chosen;
use crate::law::View;
use crate::pass::Pass;
use crate::region::{Region, step};
use atomic_table::Seat;
use smc_core::{Op, State, Word};
use smc_shape::{Place, Shape};
use std::marker::Model;

/// A pass inside a section. Contracts see it as the pass.
#[derive(Drop)]
pub struct Section<'r> {
    pub(crate) region: &'r Region,
    pub(crate) cursors: Box<Vec<u32>>,
    pub(crate) epoch: u64,
    pub(crate) number: u32,
    /// How many scans the section has begun.
    pub(crate) scans: u32,
    pub(crate) calm: bool,
    pub(crate) seat: Seat<(), View>,
}

impl<'r> Model for Section<'r> {
    ghost use Rattle.std.specs.Prelude.{◌≡◌, length};
    ghost use Rattle.smc_core.specs.declared.section.Section.TheVariants as section;
    ghost use Rattle.smc_region.specs.Callers.{Caller, IsPassOf, IsSeatOf, caller_of};
    ghost use Rattle.smc_region.specs.Reached.{From};

    ghost Value = { Caller };

    ghost view = { λ p. caller_of p.number p.seat.table_id p.seat.me };

    ghost invariant = { λ p. IsSeatOf p.number p.seat.me × From p.seat.me.0 × IsPassOf p.region.now (caller_of p.number p.seat.table_id p.seat.me)
        × ((caller_of p.number p.seat.table_id p.seat.me).local.stand.section ≡ section.Inside p.epoch p.calm)
        × (length (caller_of p.number p.seat.table_id p.seat.me).local.stand.scans ≡ p.scans)
        × (p.cursors.value.items ≡ (caller_of p.number p.seat.table_id p.seat.me).local.cursors)
        × (length p.cursors.value.items ≡ length p.seat.me.0.shape.colls) };
}

/// How many scans a section has begun after this choice.
#[inline(always)]
pub(crate) fn scans_with(scans: u32, chosen: Chosen<'_>) -> u32
    requires { MayBegin scans chosen }
    ensures { result ≡ scans_with scans chosen.entry }
{
    match chosen {
        Chosen::Scan { .. } => scans + 1,
        _ => scans,
    }
}

/// The cursor of the collection goes behind the slot.
#[inline(always)]
pub(crate) fn move_behind(shape: &Shape, cursors: &mut Box<Vec<u32>>, coll: u8, slot: u32)
    requires within { coll < length shape.now.colls }
    requires long { length cursors.old.value.items ≡ length shape.now.colls }
    ensures moved { cursors.new.value.items ≡ slice_set cursors.old.value.items coll (next_round (slots_of shape.now coll) slot) }
    ensures long { length cursors.new.value.items ≡ length cursors.old.value.items }
{
    let slots = shape.slots(coll);
    let next = if slot < slots && slot + 1 < slots {
        slot + 1
    } else {
        0
    };
    cursors[usize::from(coll)] = next;
}

/// The cursors after an operation: the store of a new object leaves its collection's behind its slot.
#[inline(always)]
fn move_cursor(shape: &Shape, cursors: &mut Box<Vec<u32>>, op: Op)
    requires fits { OpFits shape.now op }
    requires long { length cursors.old.value.items ≡ length shape.now.colls }
    ensures moved { cursors.new.value.items ≡ cursors_by shape.now cursors.old.value.items op }
    ensures long { length cursors.new.value.items ≡ length cursors.old.value.items }
{
    if let Op::Store {
        place: Place::Entry { coll, .. },
        word: Word::Entry(State::Present { slot, .. }),
    } = op
    {
        move_behind(shape, cursors, coll, slot);
    }
}

impl<'r> Section<'r> {
    /// One atomic step: the one that the pass offers for this choice. Answers the word that it was shown.
    #[inline(always)]
    pub fn take(&mut self, chosen: Chosen<'_>, op: Op) -> Word
        requires within { IsWithin (choice_of self.old.local.stand.scans chosen) }
        requires offered { op_of (local_offer self.old.shape self.old.number self.old.local (choice_of self.old.local.stand.scans chosen)) ≡ Some op }
        requires scans { MayBegin (length self.old.local.stand.scans) chosen }
        ensures same { IsSame self.old self.new }
        ensures after { self.new.local ≡ after self.old.shape self.old.number self.old.local (choice_of self.old.local.stand.scans chosen.entry) 0 result }
        ensures took { Took self.old.shape self.old.number self.old.local op result self.new.local }
        ensures saw { Saw (one self.old.shape self.old.number self.old.local) op result }
        ensures fits { OpFits self.old.shape op }
    {
        let word = step(self.region, &mut self.seat, chosen, op);
        self.scans = scans_with(self.scans, chosen);
        move_cursor(&self.region.about.shape, &mut self.cursors, op);
        word
    }
}

impl<'r> Section<'r> {
    /// The epoch of the section.
    pub fn epoch(&self) -> u64
        ensures epoch { result ≡ epoch_of self.now.local.stand.section }
        ensures low { result ≤ LAST_EPOCH }
    {
        self.epoch
    }

    /// Whether the section is calm: no object is locked while it lasts.
    pub fn calm(&self) -> bool
        ensures calm { result ≡ is_calm self.now.local.stand.section }
        ensures inside { self.now.local.stand.section ≡ Inside (epoch_of self.now.local.stand.section) result }
    {
        self.calm
    }

    /// How many scans the section has begun.
    pub fn scans(&self) -> u32
        ensures { result ≡ length self.now.local.stand.scans }
    {
        self.scans
    }

    /// Does nothing. What it says holds between the steps of a section: some state that the machine reaches has its local
    /// state, so every law over reached states holds of it.
    #[inline(always)]
    pub fn stands(&self)
        ensures { From (one self.now.shape self.now.number self.now.local) }
    {
        let _number = self.number;
    }

    /// The number of its pass.
    pub fn pass(&self) -> u32
        ensures { result ≡ self.now.number }
    {
        self.number
    }

    /// Its region.
    pub fn region(&self) -> &'r Region
        ensures { IsPassOf result.now self.now }
    {
        self.region
    }

    /// The slot behind that of the latest object that the pass has added to the collection `c`, at first 0.
    pub fn cursor(&self, c: u8) -> u32
        requires { c < length self.now.shape.colls }
        ensures is { slice_get self.now.local.cursors c ≡ Some result }
        ensures within { result < slots_of self.now.shape c }
    {
        self.cursors[usize::from(c)]
    }

    /// Ends the section.
    #[inline]
    pub fn leave(self) -> Pass
        requires idle { self.local.stand.phase ≡ Idle }
        ensures same { IsSame self.entry result }
        ensures left { result.local ≡ left self.entry.local }
    {
        let Section {
            region,
            number,
            epoch: _,
            calm: _,
            scans: _,
            cursors,
            mut seat,
        } = self;
        let out = Op::Store {
            place: Place::Section { pass: number },
            word: Word::Plain(0),
        };
        step(region, &mut seat, Chosen::Leave, out);
        Pass {
            number,
            cursors,
            seat,
        }
    }
}
