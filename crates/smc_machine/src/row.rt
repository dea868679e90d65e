//! The numbers of a region's words in one row: how they are opened, read, and changed by an operation.
ghost use Rattle.std.specs.Prelude.{◌≡◌, ◌<◌, IfSome, IfOk, length};
ghost use Rattle.smc_shape.specs.Layout.{IsShape};
ghost use Rattle.smc_core.specs.Machine.{IsOpening, IsOpened};
ghost use Rattle.smc_core.specs.Row.{place_of, has_place, number_at, put, shown, row_after, row_shows};
ghost use Rattle.smc_automaton.specs.FitsWord.{FitsAt, FitsOp, FitsSeen};
ghost use Rattle.smc_machine.specs.Rows.{index_of};

use smc_automaton::laws::numbers_fit;
use smc_core::{Op, Opening, Word};
use smc_row::{opened_row, packed, unpacked};
use smc_shape::{Place, Shape};
use smc_words::{Entry, NoMemory};
use std::alloc::Global;
use std::marker::Model;

/// The numbers of a region's words, in one row.
#[derive(Drop)]
pub(crate) struct Row {
    shape: Shape,
    numbers: Vec<u64>,
}

impl Model for Row {
    ghost use Rattle.smc_machine.specs.Rows.{Numbers, IsRow};

    ghost Value = { Numbers };

    ghost view = { λ r. record { shape = r.shape; row = r.numbers.items } };

    ghost invariant = { λ r. IsRow r.shape r.numbers.items };
}

impl Row {
    /// The row of a region without objects.
    pub(crate) fn open(alloc: Global, shape: Shape, opening: Opening) -> Result<Row, NoMemory>
        requires { IsOpening opening }
        ensures shape { IfOk result (λ row. row.shape ≡ shape) }
        ensures opened { IfOk result (λ row. IsOpened shape opening row.row) }
    {
        let numbers = opened_row(alloc, &shape, opening)?;
        Ok(Row { shape, numbers })
    }

    pub(crate) fn shape(&self) -> &Shape
        ensures shape { result.now ≡ self.now.shape }
        ensures valid { IsShape result.now }
    {
        &self.shape
    }

    /// Whether the region has this place.
    fn has_place(&self, place: Place) -> bool
        ensures { result ≡ has_place self.now.shape place }
    {
        let shape = &self.shape;
        match place {
            Place::Epoch | Place::Round => true,
            Place::Section { pass } => pass < shape.passes(),
            Place::Entry { coll, entry } => {
                u32::from(coll) < shape.colls() && entry < shape.entries(coll)
            }
            Place::Directory { coll, slot }
            | Place::Back { coll, slot }
            | Place::Forward { coll, slot } => {
                u32::from(coll) < shape.colls() && slot < shape.slots(coll)
            }
            Place::Field { coll, slot, field } => {
                u32::from(coll) < shape.colls()
                    && slot < shape.slots(coll)
                    && field < shape.width(coll)
            }
        }
    }

    /// The index of a place, where the region has it.
    fn index_of(&self, place: Place) -> Option<usize>
        ensures index { result ≡ index_of self.now.shape place }
        ensures within { IfSome result (λ index. index < length self.now.row) }
    {
        if self.has_place(place) {
            Some(self.shape.at(place))
        } else {
            None
        }
    }

    /// The number at a place; 0 where the region has no such place.
    pub(crate) fn number_at(&self, place: Place) -> u64
        ensures number { result ≡ number_at self.now.shape self.now.row place }
        ensures fits { FitsAt place result }
    {
        match self.index_of(place) {
            Some(index) => self.numbers[index],
            None => 0,
        }
    }

    /// What the operation shows.
    pub(crate) fn shows(&self, op: Op) -> Word
        ensures shown { result ≡ row_shows self.now.shape op self.now.row }
        ensures fits { FitsSeen op result }
    {
        numbers_fit();
        let number = self.number_at(place_of(op));
        match op {
            Op::Load { place } | Op::Exchange { place, .. } => unpacked(place, number),
            Op::Store { .. } => Word::Plain(0),
            Op::MarkGone { coll, entry } => unpacked(Place::Entry { coll, entry }, number),
        }
    }

    /// Does the operation; nothing changes where the region has no such place.
    pub(crate) fn apply(&mut self, op: Op)
        requires { FitsOp op }
        ensures shape { self.new.shape ≡ self.old.shape }
        ensures row { self.new.row ≡ row_after self.old.shape op self.old.row }
    {
        if let Some(index) = self.index_of(place_of(op)) {
            self.numbers[index] = put(op, self.numbers[index]);
        }
    }
}

/// The place that an operation is on.
fn place_of(op: Op) -> Place
    ensures { result ≡ place_of op }
{
    match op {
        Op::Load { place } | Op::Store { place, .. } | Op::Exchange { place, .. } => place,
        Op::MarkGone { coll, entry } => Place::Entry { coll, entry },
    }
}

/// The number that an operation leaves where there was another.
fn put(op: Op, number: u64) -> u64
    requires { FitsOp op }
    ensures { result ≡ put op number }
{
    match op {
        Op::Load { .. } => number,
        Op::Store { word, .. } => packed(word),
        Op::Exchange {
            expect,
            put: word,
            ..
        } => {
            if number == packed(expect) {
                packed(word)
            } else {
                number
            }
        }
        Op::MarkGone { .. } => number | Entry::GONE,
    }
}
