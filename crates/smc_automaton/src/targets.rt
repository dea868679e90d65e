//! How a finish goes on from target to target.
ghost use Rattle.std.specs.Prelude.{◌≡◌, ◌<◌};
ghost use Rattle.smc_core.specs.Finish.{first_target, next_target, with_moved, with_given_up, target_owner, give_up, lock, «move»};
ghost use Rattle.smc_automaton.specs.FitsPhase.{FitsCopy, FitsTargets};

use crate::copy::copy_next;
use crate::seen::has_object;
use crate::size::slots_of;
use smc_core::{CopyPhase, FinishPhase, State, Targets, Word};
use smc_shape::Shape;
use smc_words::{ENTRIES, Number};

/// The walk over targets begins at the first slot.
pub(crate) fn first_target(coll: u8) -> Targets
    ensures is { result ≡ first_target coll }
    ensures fits { FitsTargets result }
{
    Targets {
        coll,
        slot: 0,
        moved: 0,
        abandoned: 0,
        gone: 0,
    }
}

/// The walk goes on with the next slot, or, where each was passed, to its end.
pub(crate) fn next_target(shape: &Shape, targets: Targets) -> FinishPhase
    requires { targets.slot < ENTRIES }
    ensures { result ≡ next_target shape.now targets }
{
    if targets.slot + 1 < slots_of(shape, targets.coll) {
        FinishPhase::Directory(Targets {
            slot: targets.slot + 1,
            ..targets
        })
    } else {
        FinishPhase::End(targets)
    }
}

/// One more target has got its object.
pub(crate) fn with_moved(targets: Targets) -> Targets
    requires { FitsTargets targets }
    ensures { result ≡ with_moved targets }
{
    Targets {
        moved: targets.moved + 1,
        ..targets
    }
}

/// One more target was given up: its object is gone, or was left where it is.
pub(crate) fn with_given_up(gone: bool, targets: Targets) -> Targets
    requires { FitsTargets targets }
    ensures { result ≡ with_given_up gone targets }
{
    if gone {
        Targets {
            gone: targets.gone + 1,
            ..targets
        }
    } else {
        Targets {
            abandoned: targets.abandoned + 1,
            ..targets
        }
    }
}

/// The entry of the target's owner is loaded; a target without one is given up.
pub(crate) fn target_owner(targets: Targets, owner: Option<Number>) -> FinishPhase
    ensures { result ≡ target_owner targets owner }
{
    match owner {
        None => FinishPhase::GiveUp {
            targets,
            gone: true,
        },
        Some(number) => FinishPhase::Entry { targets, number },
    }
}

/// A target is given up, by the last that was seen of the entry of its object.
pub(crate) fn give_up(targets: Targets, number: Number, seen: State) -> FinishPhase
    ensures { result ≡ give_up targets number seen }
{
    FinishPhase::GiveUp {
        targets,
        gone: !has_object(number.incarnation, seen),
    }
}

/// By the entry: a frozen object is to be locked.
pub(crate) fn lock(
    targets: Targets,
    number: Number,
    seen: State,
    source: Option<u32>,
) -> FinishPhase
    ensures { result ≡ lock targets number seen source }
{
    match source {
        None => give_up(targets, number, seen),
        Some(source) => FinishPhase::Lock {
            targets,
            number,
            source,
        },
    }
}

/// After a step of copying: after the swing, whatever it saw, the target is settled.
pub(crate) fn moved(
    shape: &Shape,
    targets: Targets,
    number: Number,
    source: u32,
    next: CopyPhase,
    seen: Word,
) -> FinishPhase
    requires { FitsCopy next }
    ensures { result ≡ «move» shape.now targets number source next seen }
{
    match next {
        CopyPhase::Swing { .. } => FinishPhase::Settle { targets, source },
        CopyPhase::Target | CopyPhase::Load { .. } | CopyPhase::Put { .. } => FinishPhase::Move {
            targets,
            number,
            source,
            copy: copy_next(shape, number.coll, next, seen),
        },
    }
}
