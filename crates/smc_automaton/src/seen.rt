//! What the words that a step was shown say of slots and objects.
ghost use Rattle.std.specs.Prelude.{◌≡◌};
ghost use Rattle.smc_core.specs.Begin.{is_source};
ghost use Rattle.smc_core.specs.Count.{is_valid};
ghost use Rattle.smc_core.specs.Finish.{is_incoming, frozen_slot};
ghost use Rattle.smc_core.specs.Ripe.{is_ripe, is_ripe_slot, is_ripe_entry};
ghost use Rattle.smc_core.specs.Scan.{is_scanned};
ghost use Rattle.smc_core.specs.Words.{is_gone, has_object, has_object_at, same_number};

use smc_core::State;
use smc_words::{Dir, INCARNATIONS, Number};

/// A section may use again what has a stamp so many epochs below its own.
const RIPE_AFTER: u64 = 2;

fn is_ripe(epoch: u64, stamp: u64) -> bool
    ensures { result ≡ is_ripe epoch stamp }
{
    epoch.saturating_sub(stamp) >= RIPE_AFTER
}

/// Whether a section at this epoch may claim the slot.
pub(crate) fn is_ripe_slot(epoch: u64, dir: Dir) -> bool
    ensures { result ≡ is_ripe_slot epoch dir }
{
    match dir {
        Dir::Free => true,
        Dir::Limbo(stamp) => is_ripe(epoch, stamp),
        Dir::Claimed | Dir::Incoming | Dir::Valid => false,
    }
}

/// Whether it may claim the free entry: one with the last incarnation is spent.
pub(crate) fn is_ripe_entry(epoch: u64, incarnation: u32, stamp: u64) -> bool
    ensures { result ≡ is_ripe_entry epoch incarnation stamp }
{
    is_ripe(epoch, stamp) && incarnation < INCARNATIONS - 1
}

/// Whether an object is in the slot.
pub(crate) fn is_valid(dir: Dir) -> bool
    ensures { result ≡ is_valid dir }
{
    match dir {
        Dir::Valid => true,
        Dir::Free | Dir::Claimed | Dir::Incoming | Dir::Limbo(_) => false,
    }
}

/// Whether an object is to move to the slot.
pub(crate) fn is_incoming(dir: Dir) -> bool
    ensures { result ≡ is_incoming dir }
{
    match dir {
        Dir::Incoming => true,
        Dir::Free | Dir::Claimed | Dir::Valid | Dir::Limbo(_) => false,
    }
}

/// Whether a scan looks for an object in the slot.
pub(crate) fn is_scanned(dir: Dir) -> bool
    ensures { result ≡ is_scanned dir }
{
    match dir {
        Dir::Valid | Dir::Incoming => true,
        Dir::Free | Dir::Claimed | Dir::Limbo(_) => false,
    }
}

/// Whether the entry is marked that its object is gone.
pub(crate) fn is_gone(seen: State) -> bool
    ensures { result ≡ is_gone seen }
{
    match seen {
        State::Present { .. } | State::Frozen { .. } | State::Locked { .. } => false,
        State::Free { .. } | State::Claimed { .. } | State::Removed { .. } => true,
    }
}

/// Whether the object with this incarnation of the entry is present.
pub(crate) fn has_object(incarnation: u32, seen: State) -> bool
    ensures { result ≡ has_object incarnation seen }
{
    match seen {
        State::Present {
            incarnation: other,
            ..
        }
        | State::Frozen {
            incarnation: other,
            ..
        }
        | State::Locked {
            incarnation: other,
            ..
        } => other == incarnation,
        State::Free { .. } | State::Claimed { .. } | State::Removed { .. } => false,
    }
}

/// Whether it is present in this slot.
pub(crate) fn has_object_at(incarnation: u32, slot: u32, seen: State) -> bool
    ensures { result ≡ has_object_at incarnation slot seen }
{
    match seen {
        State::Present {
            incarnation: other,
            slot: there,
        }
        | State::Frozen {
            incarnation: other,
            slot: there,
        }
        | State::Locked {
            incarnation: other,
            slot: there,
        } => other == incarnation && there == slot,
        State::Free { .. } | State::Claimed { .. } | State::Removed { .. } => false,
    }
}

/// Whether it is present in this slot, and no round means to move it.
pub(crate) fn is_source(number: Number, slot: u32, seen: State) -> bool
    ensures { result ≡ is_source number slot seen }
{
    match seen {
        State::Present {
            incarnation,
            slot: there,
        } => incarnation == number.incarnation && there == slot,
        State::Free { .. }
        | State::Claimed { .. }
        | State::Frozen { .. }
        | State::Locked { .. }
        | State::Removed { .. } => false,
    }
}

/// The slot in which the entry has the object frozen, if it has.
pub(crate) fn frozen_slot(number: Number, seen: State) -> Option<u32>
    ensures { result ≡ frozen_slot number seen }
{
    match seen {
        State::Frozen { incarnation, slot } => {
            if incarnation == number.incarnation {
                Some(slot)
            } else {
                None
            }
        }
        State::Free { .. }
        | State::Claimed { .. }
        | State::Present { .. }
        | State::Locked { .. }
        | State::Removed { .. } => None,
    }
}

/// Whether the two are the number of one object.
pub(crate) fn same_number(a: Number, b: Number) -> bool
    ensures { result ≡ same_number a b }
{
    a.incarnation == b.incarnation && a.entry == b.entry && a.coll == b.coll
}
