//! What a step does to one word: its operation, the place, and the word that it puts there.
ghost use Rattle.std.specs.Prelude.{◌≡◌, ◌+◌, ◌≤◌};
ghost use Rattle.smc_core.specs.Step.{step};

use smc_core::{Kind, LAST_EPOCH, Offer, Op, State, Word};
use smc_shape::Place;
use smc_words::{Dir, Number};

/// The load of a word, as a step of this kind.
pub(crate) fn load(kind: Kind, place: Place) -> Offer
    ensures { result ≡ step kind (Op.Load place) }
{
    Offer {
        kind,
        op: Op::Load { place },
    }
}

/// The store of a word.
pub(crate) fn store(kind: Kind, place: Place, word: Word) -> Offer
    ensures { result ≡ step kind (Op.Store place word) }
{
    Offer {
        kind,
        op: Op::Store { place, word },
    }
}

/// The exchange of a word that is expected.
pub(crate) fn exchange(kind: Kind, place: Place, expect: Word, put: Word) -> Offer
    ensures { result ≡ step kind (Op.Exchange place expect put) }
{
    Offer {
        kind,
        op: Op::Exchange { place, expect, put },
    }
}

/// The mark on the entry of this number.
pub(crate) fn mark_gone(kind: Kind, number: Number) -> Offer
    ensures { result ≡ step kind (Op.MarkGone number.coll number.entry) }
{
    Offer {
        kind,
        op: Op::MarkGone {
            coll: number.coll,
            entry: number.entry,
        },
    }
}

pub(crate) fn section_of(pass: u32) -> Place
    ensures { result ≡ Place.Section pass }
{
    Place::Section { pass }
}

pub(crate) fn entry_at(coll: u8, entry: u32) -> Place
    ensures { result ≡ Place.Entry coll entry }
{
    Place::Entry { coll, entry }
}

pub(crate) fn entry_of(number: Number) -> Place
    ensures { result ≡ Place.Entry number.coll number.entry }
{
    entry_at(number.coll, number.entry)
}

pub(crate) fn directory(coll: u8, slot: u32) -> Place
    ensures { result ≡ Place.Directory coll slot }
{
    Place::Directory { coll, slot }
}

pub(crate) fn back(coll: u8, slot: u32) -> Place
    ensures { result ≡ Place.Back coll slot }
{
    Place::Back { coll, slot }
}

pub(crate) fn forward(coll: u8, slot: u32) -> Place
    ensures { result ≡ Place.Forward coll slot }
{
    Place::Forward { coll, slot }
}

pub(crate) fn field_of(coll: u8, slot: u32, field: u32) -> Place
    ensures { result ≡ Place.Field coll slot field }
{
    Place::Field { coll, slot, field }
}

/// The word of an entry whose object is in the slot.
pub(crate) fn present(number: Number, slot: u32) -> Word
    ensures { result ≡ Word.Entry (State.Present number.incarnation slot) }
{
    Word::Entry(State::Present {
        incarnation: number.incarnation,
        slot,
    })
}

/// The same with the mark of a round that means to move the object.
pub(crate) fn frozen(number: Number, slot: u32) -> Word
    ensures { result ≡ Word.Entry (State.Frozen number.incarnation slot) }
{
    Word::Entry(State::Frozen {
        incarnation: number.incarnation,
        slot,
    })
}

/// The same with the marks of a round that moves it.
pub(crate) fn locked(number: Number, slot: u32) -> Word
    ensures { result ≡ Word.Entry (State.Locked number.incarnation slot) }
{
    Word::Entry(State::Locked {
        incarnation: number.incarnation,
        slot,
    })
}

/// The store with which a section at this epoch leaves a slot, which may be used again from some later epoch on.
pub(crate) fn leave_slot(coll: u8, slot: u32, epoch: u64) -> Offer
    requires { epoch ≤ LAST_EPOCH }
    ensures { result ≡ step Kind.LeaveSlot (Op.Store (Place.Directory coll slot) (Word.Directory (Dir.Limbo (epoch + 1)))) }
{
    let limbo = Dir::Limbo(epoch + 1);
    store(
        Kind::LeaveSlot,
        directory(coll, slot),
        Word::Directory(limbo),
    )
}
