//! Cancelling a round: every frozen object is tried once to be unfrozen, and every target is given up.
ghost use Rattle.std.specs.Prelude.{◌≡◌, ◌<◌, ◌≤◌};
ghost use Rattle.smc_core.specs.Cancel.{cancel_offer, next_cancelled, cancel_owner, unfreeze, cancel_next, cancel_change};
ghost use Rattle.smc_automaton.specs.FitsPhase.{FitsCancel};

use crate::op::{back, directory, entry_of, exchange, frozen, leave_slot, load, present, store};
use crate::seen::{frozen_slot, is_incoming};
use crate::size::slots_of;
use crate::step::{ends, goes};
use smc_core::{CancelPhase, Change, Done, Kind, LAST_EPOCH, Offer, Phase, Word};
use smc_shape::{Place, Shape};
use smc_words::{ENTRIES, Number};

/// The step of a cancel, in a section at this epoch.
pub(crate) fn cancel_offer(epoch: u64, next: CancelPhase) -> Offer
    requires { epoch ≤ LAST_EPOCH }
    ensures { result ≡ cancel_offer epoch next }
{
    match next {
        CancelPhase::Directory { coll, slot } => load(Kind::LoadDirectory, directory(coll, slot)),
        CancelPhase::Back { coll, slot } => load(Kind::LoadBack, back(coll, slot)),
        CancelPhase::Entry { number, .. } => load(Kind::LoadEntry, entry_of(number)),
        CancelPhase::Unfreeze { number, source, .. } => exchange(
            Kind::Unfreeze,
            entry_of(number),
            frozen(number, source),
            present(number, source),
        ),
        CancelPhase::GiveUp { coll, slot } => leave_slot(coll, slot, epoch),
        CancelPhase::End => store(Kind::CloseRound, Place::Round, Word::Round(None)),
    }
}

/// The walk goes on with the next slot, or, where each was passed, to its end.
fn next_cancelled(shape: &Shape, coll: u8, slot: u32) -> CancelPhase
    requires { slot < ENTRIES }
    ensures { result ≡ next_cancelled shape.now coll slot }
{
    if slot + 1 < slots_of(shape, coll) {
        CancelPhase::Directory {
            coll,
            slot: slot + 1,
        }
    } else {
        CancelPhase::End
    }
}

/// The entry of the target's owner is loaded; a target without one is given up.
fn cancel_owner(coll: u8, slot: u32, owner: Option<Number>) -> CancelPhase
    ensures { result ≡ cancel_owner coll slot owner }
{
    match owner {
        None => CancelPhase::GiveUp { coll, slot },
        Some(number) => CancelPhase::Entry { coll, slot, number },
    }
}

/// A frozen object is to be unfrozen.
fn unfreeze(coll: u8, slot: u32, number: Number, source: Option<u32>) -> CancelPhase
    ensures { result ≡ unfreeze coll slot number source }
{
    match source {
        None => CancelPhase::GiveUp { coll, slot },
        Some(source) => CancelPhase::Unfreeze {
            coll,
            slot,
            number,
            source,
        },
    }
}

/// Where a step leaves a cancel that goes on.
fn cancel_next(shape: &Shape, next: CancelPhase, seen: Word) -> CancelPhase
    requires { FitsCancel next }
    ensures { result ≡ cancel_next shape.now next seen }
{
    match next {
        CancelPhase::Directory { coll, slot } => {
            if is_incoming(seen.dir()) {
                CancelPhase::Back { coll, slot }
            } else {
                next_cancelled(shape, coll, slot)
            }
        }
        CancelPhase::Back { coll, slot } => cancel_owner(coll, slot, seen.back()),
        CancelPhase::Entry { coll, slot, number } => {
            unfreeze(coll, slot, number, frozen_slot(number, seen.state()))
        }
        CancelPhase::Unfreeze { coll, slot, .. } => CancelPhase::GiveUp { coll, slot },
        CancelPhase::GiveUp { coll, slot } => next_cancelled(shape, coll, slot),
        CancelPhase::End => CancelPhase::End,
    }
}

/// What a step of a cancel changes.
pub(crate) fn cancel_change(shape: &Shape, next: CancelPhase, seen: Word) -> Change
    requires { FitsCancel next }
    ensures { result ≡ cancel_change shape.now next seen }
{
    match next {
        CancelPhase::End => ends(Done::Cancelled),
        CancelPhase::Directory { .. }
        | CancelPhase::Back { .. }
        | CancelPhase::Entry { .. }
        | CancelPhase::Unfreeze { .. }
        | CancelPhase::GiveUp { .. } => goes(Phase::Cancel(cancel_next(shape, next, seen))),
    }
}
