//! Adding an object: a slot and an entry are claimed, the words are stored, and the entry is made live.
ghost use Rattle.std.specs.Prelude.{◌≡◌, IfOk, IfErr};
ghost use Rattle.smc_core.specs.Add.{add_offer, add_change, store_field};
ghost use Rattle.smc_core.specs.Step.{tells};
ghost use Rattle.smc_automaton.specs.FitsPhase.{FitsAdd};
ghost use Rattle.smc_automaton.specs.Effects.{EndsAdd};

use crate::claim::{entry_seen, next_entry, next_slot, refuses, slot_seen};
use crate::op::{back, directory, entry_at, entry_of, exchange, field_of, load, present, store};
use crate::size::width_of;
use crate::step::{goes, tells};
use smc_core::{AddPhase, Change, Choice, Done, Kind, Offer, Phase, State, Word};
use smc_model::{Cause, Event, Record};
use smc_shape::Shape;
use smc_words::{Dir, NoMemory, Number};
use std::alloc::Global;

/// The step of an add that stores these words.
pub(crate) fn add_offer(shape: &Shape, words: &Record, next: AddPhase) -> Offer
    requires { FitsAdd shape.now words.now next }
    ensures { result ≡ add_offer words.now next }
{
    match next {
        AddPhase::FindSlot { coll, slot, .. } => load(Kind::LoadDirectory, directory(coll, slot)),
        AddPhase::ClaimSlot {
            coll,
            slot,
            seen,
            ..
        } => exchange(
            Kind::ClaimSlot,
            directory(coll, slot),
            Word::Directory(seen),
            Word::Directory(Dir::Claimed),
        ),
        AddPhase::DropSlot { coll, slot } => store(
            Kind::DropSlot,
            directory(coll, slot),
            Word::Directory(Dir::Free),
        ),
        AddPhase::FindEntry { coll, entry, .. } => load(Kind::LoadEntry, entry_at(coll, entry)),
        AddPhase::ClaimEntry {
            coll,
            entry,
            incarnation,
            stamp,
            ..
        } => exchange(
            Kind::ClaimEntry,
            entry_at(coll, entry),
            Word::Entry(State::Free { incarnation, stamp }),
            Word::Entry(State::Claimed {
                incarnation: incarnation + 1,
            }),
        ),
        AddPhase::StoreBack { slot, number } => store(
            Kind::StoreBack,
            back(number.coll, slot),
            Word::Back(Some(number)),
        ),
        AddPhase::StoreField {
            slot,
            number,
            field,
        } => store(
            Kind::StoreField,
            field_of(number.coll, slot, field),
            Word::Plain(words.words()[field as usize]),
        ),
        AddPhase::StoreValid { slot, number } => store(
            Kind::StoreValid,
            directory(number.coll, slot),
            Word::Directory(Dir::Valid),
        ),
        AddPhase::StoreLive { slot, number } => store(
            Kind::StoreLive,
            entry_of(number),
            present(number, slot),
        ),
    }
}

/// The field is stored next, or, where it is none, that the slot is valid.
fn store_field(shape: &Shape, slot: u32, number: Number, field: u32) -> AddPhase
    ensures { result ≡ store_field shape.now slot number field }
{
    if field < width_of(shape, number.coll) {
        AddPhase::StoreField {
            slot,
            number,
            field,
        }
    } else {
        AddPhase::StoreValid { slot, number }
    }
}

/// The add ends, and its event has a copy of the words.
fn adds(alloc: Global, words: &Record, number: Number, slot: u32) -> Result<Change, NoMemory>
    ensures { IfOk result (λ made. made ≡ tells (Event.Add number number.coll words.now) (Done.Made slot)) }
{
    let words = Record::of(alloc, words.words())?;
    Ok(tells(
        Event::Add {
            number,
            coll: number.coll,
            words,
        },
        Done::Made { slot },
    ))
}

/// What a step of an add changes, in a section at this epoch. Only the last one takes memory.
pub(crate) fn add_change(
    alloc: Global,
    shape: &Shape,
    epoch: u64,
    words: &Record,
    next: AddPhase,
    seen: Word,
) -> Result<Change, NoMemory>
    requires { FitsAdd shape.now words.now next }
    ensures done { IfOk result (λ made. made ≡ add_change shape.now epoch words.now next seen) }
    ensures cause { IfErr result (λ _. EndsAdd (Phase.Add next) Choice.Go) }
{
    Ok(match next {
        AddPhase::FindSlot {
            coll,
            from,
            slot,
            tried,
        } => slot_seen(shape, epoch, coll, from, slot, tried, seen.dir()),
        AddPhase::ClaimSlot {
            coll,
            from,
            slot,
            tried,
            seen: free,
        } => {
            if seen.same(Word::Directory(free)) {
                goes(Phase::Add(AddPhase::FindEntry {
                    coll,
                    slot,
                    entry: from,
                    tried: 0,
                }))
            } else {
                next_slot(shape, coll, from, slot, tried)
            }
        }
        AddPhase::DropSlot { coll, .. } => refuses(coll, Cause::Entries),
        AddPhase::FindEntry {
            coll,
            slot,
            entry,
            tried,
        } => entry_seen(shape, epoch, coll, slot, entry, tried, seen.state()),
        AddPhase::ClaimEntry {
            coll,
            slot,
            entry,
            tried,
            incarnation,
            stamp,
        } => {
            if seen.same(Word::Entry(State::Free { incarnation, stamp })) {
                let number = Number {
                    incarnation: incarnation + 1,
                    entry,
                    coll,
                };
                goes(Phase::Add(AddPhase::StoreBack { slot, number }))
            } else {
                next_entry(shape, coll, slot, entry, tried)
            }
        }
        AddPhase::StoreBack { slot, number } => {
            goes(Phase::Add(store_field(shape, slot, number, 0)))
        }
        AddPhase::StoreField {
            slot,
            number,
            field,
        } => goes(Phase::Add(store_field(shape, slot, number, field + 1))),
        AddPhase::StoreValid { slot, number } => {
            goes(Phase::Add(AddPhase::StoreLive { slot, number }))
        }
        AddPhase::StoreLive { slot, number } => return adds(alloc, words, number, slot),
    })
}
