//! What a look-up learns from the words that it is shown.
ghost use Rattle.std.specs.Prelude.{◌≡◌, if◌then◌else◌};
ghost use Rattle.smc_core.specs.Look.{find, find_after_abandon, find_after_swing, help_finding, look_finding};
ghost use Rattle.smc_automaton.specs.FitsPhase.{FitsCopy, FitsLook};

use crate::copy::copy_next;
use crate::op::{frozen, locked};
use smc_core::{CopyPhase, Finding, LookPhase, State, Word};
use smc_shape::Shape;
use smc_words::Number;

/// The object is held in this slot, where its entry is still its own.
fn stays_where(own: bool, slot: u32) -> Finding
    ensures { result ≡ (if own then Finding.Stays slot else Finding.Absent) }
{
    if own {
        Finding::Stays { slot }
    } else {
        Finding::Absent
    }
}

/// By the entry: a frozen object is held in a calm section and its move abandoned in another, and a locked one is held in
/// a calm section and its move helped in another.
fn find(calm: bool, incarnation: u32, seen: State) -> Finding
    ensures { result ≡ find calm incarnation seen }
{
    match seen {
        State::Present {
            incarnation: other,
            slot,
        } => stays_where(other == incarnation, slot),
        State::Frozen {
            incarnation: other,
            slot,
        } => {
            if other != incarnation {
                Finding::Absent
            } else if calm {
                Finding::Stays { slot }
            } else {
                Finding::Abandons { slot }
            }
        }
        State::Locked {
            incarnation: other,
            slot,
        } => {
            if other != incarnation {
                Finding::Absent
            } else if calm {
                Finding::Stays { slot }
            } else {
                Finding::Helps {
                    slot,
                    copy: CopyPhase::Target,
                }
            }
        }
        State::Free { .. } | State::Claimed { .. } | State::Removed { .. } => Finding::Absent,
    }
}

/// By the entry that was seen when abandoning failed: only a locked one is not held.
fn find_after_abandon(incarnation: u32, seen: State) -> Finding
    ensures { result ≡ find_after_abandon incarnation seen }
{
    match seen {
        State::Present {
            incarnation: other,
            slot,
        }
        | State::Frozen {
            incarnation: other,
            slot,
        } => stays_where(other == incarnation, slot),
        State::Locked {
            incarnation: other,
            slot,
        } => {
            if other == incarnation {
                Finding::Helps {
                    slot,
                    copy: CopyPhase::Target,
                }
            } else {
                Finding::Absent
            }
        }
        State::Free { .. } | State::Claimed { .. } | State::Removed { .. } => Finding::Absent,
    }
}

/// By the entry that was seen when the swing failed: each that is present is held in its slot.
fn find_after_swing(incarnation: u32, seen: State) -> Finding
    ensures { result ≡ find_after_swing incarnation seen }
{
    match seen {
        State::Present {
            incarnation: other,
            slot,
        }
        | State::Frozen {
            incarnation: other,
            slot,
        }
        | State::Locked {
            incarnation: other,
            slot,
        } => stays_where(other == incarnation, slot),
        State::Free { .. } | State::Claimed { .. } | State::Removed { .. } => Finding::Absent,
    }
}

/// What a look-up learns while it helps.
fn help_finding(shape: &Shape, number: Number, slot: u32, next: CopyPhase, seen: Word) -> Finding
    requires { FitsCopy next }
    ensures { result ≡ help_finding shape.now number slot next seen }
{
    match next {
        CopyPhase::Swing { target } => {
            if seen.same(locked(number, slot)) {
                Finding::Stays { slot: target }
            } else {
                find_after_swing(number.incarnation, seen.state())
            }
        }
        CopyPhase::Target | CopyPhase::Load { .. } | CopyPhase::Put { .. } => Finding::Helps {
            slot,
            copy: copy_next(shape, number.coll, next, seen),
        },
    }
}

/// What a look-up learns from its step.
pub(crate) fn look_finding(shape: &Shape, calm: bool, next: LookPhase, seen: Word) -> Finding
    requires { FitsLook next }
    ensures { result ≡ look_finding shape.now calm next seen }
{
    match next {
        LookPhase::Load { number, .. } => find(calm, number.incarnation, seen.state()),
        LookPhase::Abandon { number, slot, .. } => {
            if seen.same(frozen(number, slot)) {
                Finding::Stays { slot }
            } else {
                find_after_abandon(number.incarnation, seen.state())
            }
        }
        LookPhase::Help {
            number,
            slot,
            copy,
            ..
        } => help_finding(shape, number, slot, copy, seen),
    }
}
