//! How an add seeks a slot and an entry that it may claim, each once, round to the front.
ghost use Rattle.std.specs.Prelude.{◌≡◌, ◌<◌};
ghost use Rattle.smc_core.specs.Add.{refuses, next_slot, next_entry, slot_seen, entry_seen};
ghost use Rattle.smc_core.specs.Ripe.{next_round};

use crate::seen::{is_ripe_entry, is_ripe_slot};
use crate::size::{entries_of, slots_of};
use crate::step::{goes, tells};
use smc_core::{AddPhase, Change, Done, Phase, State};
use smc_model::{Cause, Event};
use smc_shape::Shape;
use smc_words::{Dir, ENTRIES};

/// The index behind this one, of so many, round to the front.
pub(crate) fn next_round(many: u32, index: u32) -> u32
    ensures { result ≡ next_round many index }
{
    if index < many && index + 1 < many {
        index + 1
    } else {
        0
    }
}

/// The object is not added, for want of room.
pub(crate) fn refuses(coll: u8, full: Cause) -> Change
    ensures { result ≡ refuses coll full }
{
    tells(Event::Refused { coll, full }, Done::Full { full })
}

/// The add goes on with the next slot round to the front, or, where each was looked at, ends.
pub(crate) fn next_slot(shape: &Shape, coll: u8, from: u32, slot: u32, tried: u32) -> Change
    requires { tried < ENTRIES }
    ensures { result ≡ next_slot shape.now coll from slot tried }
{
    let slots = slots_of(shape, coll);
    if tried + 1 < slots {
        goes(Phase::Add(AddPhase::FindSlot {
            coll,
            from,
            slot: next_round(slots, slot),
            tried: tried + 1,
        }))
    } else {
        refuses(coll, Cause::Slots)
    }
}

/// It goes on with the next entry round to the front, or, where each was looked at, gives its slot back.
pub(crate) fn next_entry(shape: &Shape, coll: u8, slot: u32, entry: u32, tried: u32) -> Change
    requires { tried < ENTRIES }
    ensures { result ≡ next_entry shape.now coll slot entry tried }
{
    let entries = entries_of(shape, coll);
    if tried + 1 < entries {
        goes(Phase::Add(AddPhase::FindEntry {
            coll,
            slot,
            entry: next_round(entries, entry),
            tried: tried + 1,
        }))
    } else {
        goes(Phase::Add(AddPhase::DropSlot { coll, slot }))
    }
}

/// A ripe slot is to be claimed.
pub(crate) fn slot_seen(
    shape: &Shape,
    epoch: u64,
    coll: u8,
    from: u32,
    slot: u32,
    tried: u32,
    seen: Dir,
) -> Change
    requires { tried < ENTRIES }
    ensures { result ≡ slot_seen shape.now epoch coll from slot tried seen }
{
    if is_ripe_slot(epoch, seen) {
        goes(Phase::Add(AddPhase::ClaimSlot {
            coll,
            from,
            slot,
            tried,
            seen,
        }))
    } else {
        next_slot(shape, coll, from, slot, tried)
    }
}

/// A free entry that is ripe and not spent is to be claimed.
pub(crate) fn entry_seen(
    shape: &Shape,
    epoch: u64,
    coll: u8,
    slot: u32,
    entry: u32,
    tried: u32,
    seen: State,
) -> Change
    requires { tried < ENTRIES }
    ensures { result ≡ entry_seen shape.now epoch coll slot entry tried seen }
{
    match seen {
        State::Free { incarnation, stamp } => {
            if is_ripe_entry(epoch, incarnation, stamp) {
                goes(Phase::Add(AddPhase::ClaimEntry {
                    coll,
                    slot,
                    entry,
                    tried,
                    incarnation,
                    stamp,
                }))
            } else {
                next_entry(shape, coll, slot, entry, tried)
            }
        }
        State::Claimed { .. }
        | State::Present { .. }
        | State::Frozen { .. }
        | State::Locked { .. }
        | State::Removed { .. } => next_entry(shape, coll, slot, entry, tried),
    }
}
