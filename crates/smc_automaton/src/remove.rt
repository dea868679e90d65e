//! Removing an object: the entry is marked, and the first to do so leaves the slot and the entry for later use.
ghost use Rattle.std.specs.Prelude.{◌≡◌, ◌≤◌};
ghost use Rattle.smc_core.specs.Remove.{remove_offer, mark_seen, remove_change};

use crate::op::{directory, entry_of, leave_slot, store};
use crate::seen::is_gone;
use crate::step::{ends, goes, goes_telling, tells};
use smc_core::{Change, Done, Kind, LAST_EPOCH, Offer, Phase, RemovePhase, State, Word};
use smc_model::Event;
use smc_words::Number;

/// The step of a first remove, in a section at this epoch: what it leaves has the stamp one above.
pub(crate) fn remove_offer(epoch: u64, next: RemovePhase) -> Offer
    requires { epoch ≤ LAST_EPOCH }
    ensures { result ≡ remove_offer epoch next }
{
    match next {
        RemovePhase::LeaveSlot { slot, number } => leave_slot(number.coll, slot, epoch),
        RemovePhase::FreeEntry { number } => store(
            Kind::FreeEntry,
            entry_of(number),
            Word::Entry(State::Free {
                incarnation: number.incarnation,
                stamp: epoch + 1,
            }),
        ),
    }
}

/// By the entry that was marked: where it had the mark the remove is late.
pub(crate) fn mark_seen(number: Number, slot: u32, seen: State) -> Change
    ensures { result ≡ mark_seen number slot seen }
{
    if is_gone(seen) {
        tells(
            Event::Remove {
                number,
                first: false,
            },
            Done::Late,
        )
    } else {
        goes_telling(
            Event::Remove {
                number,
                first: true,
            },
            Phase::Remove(RemovePhase::LeaveSlot { slot, number }),
        )
    }
}

/// What a step of a first remove changes.
pub(crate) fn remove_change(next: RemovePhase) -> Change
    ensures { result ≡ remove_change next }
{
    match next {
        RemovePhase::LeaveSlot { number, .. } => {
            goes(Phase::Remove(RemovePhase::FreeEntry { number }))
        }
        RemovePhase::FreeEntry { .. } => ends(Done::First),
    }
}
