//! Finishing a round: every frozen object is locked, copied and swung to its target, and every other target is given up.
ghost use Rattle.std.specs.Prelude.{◌≡◌, ◌<◌, ◌≤◌};
ghost use Rattle.smc_core.specs.Finish.{is_early, finish_offer, finish_next, finish_change, finish_start, finish_started};
ghost use Rattle.smc_automaton.specs.FitsPhase.{FitsFinish};

use crate::copy::copy_offer;
use crate::op::{
    back, directory, entry_of, exchange, frozen, leave_slot, load, locked, section_of, store,
};
use crate::seen::{frozen_slot, is_incoming};
use crate::step::{ends, goes};
use crate::targets::{
    first_target, give_up, lock, moved, next_target, target_owner, with_given_up, with_moved,
};
use smc_core::{Change, CopyPhase, Done, FinishPhase, Kind, LAST_EPOCH, Offer, Owned, Phase, Word};
use smc_shape::{Place, Shape};
use smc_words::{Dir, EPOCHS};

/// Whether a section at this epoch is too early to finish a round with this bound.
fn is_early(epoch: u64, bound: u64) -> bool
    requires { bound < EPOCHS }
    ensures { result ≡ is_early epoch bound }
{
    epoch < bound + 2
}

/// The step of a finish, in a section at this epoch.
pub(crate) fn finish_offer(epoch: u64, next: FinishPhase) -> Offer
    requires { epoch ≤ LAST_EPOCH }
    ensures { result ≡ finish_offer epoch next }
{
    match next {
        FinishPhase::Directory(targets) => load(
            Kind::LoadDirectory,
            directory(targets.coll, targets.slot),
        ),
        FinishPhase::Back(targets) => load(Kind::LoadBack, back(targets.coll, targets.slot)),
        FinishPhase::Entry { number, .. } => load(Kind::LoadEntry, entry_of(number)),
        FinishPhase::Lock { number, source, .. } => exchange(
            Kind::Lock,
            entry_of(number),
            frozen(number, source),
            locked(number, source),
        ),
        FinishPhase::Move {
            number,
            source,
            copy,
            ..
        } => copy_offer(number, source, copy),
        FinishPhase::Settle { targets, .. } => exchange(
            Kind::Settle,
            directory(targets.coll, targets.slot),
            Word::Directory(Dir::Incoming),
            Word::Directory(Dir::Valid),
        ),
        FinishPhase::LeaveSource { targets, source } => leave_slot(targets.coll, source, epoch),
        FinishPhase::GiveUp { targets, .. } => leave_slot(targets.coll, targets.slot, epoch),
        FinishPhase::End(_) => store(Kind::CloseRound, Place::Round, Word::Round(None)),
    }
}

/// Where a step leaves a finish that goes on.
fn finish_next(shape: &Shape, next: FinishPhase, seen: Word) -> FinishPhase
    requires { FitsFinish next }
    ensures { result ≡ finish_next shape.now next seen }
{
    match next {
        FinishPhase::Directory(targets) => {
            if is_incoming(seen.dir()) {
                FinishPhase::Back(targets)
            } else {
                next_target(shape, targets)
            }
        }
        FinishPhase::Back(targets) => target_owner(targets, seen.back()),
        FinishPhase::Entry { targets, number } => {
            let entry = seen.state();
            lock(targets, number, entry, frozen_slot(number, entry))
        }
        FinishPhase::Lock {
            targets,
            number,
            source,
        } => {
            if seen.same(frozen(number, source)) {
                FinishPhase::Move {
                    targets,
                    number,
                    source,
                    copy: CopyPhase::Target,
                }
            } else {
                give_up(targets, number, seen.state())
            }
        }
        FinishPhase::Move {
            targets,
            number,
            source,
            copy,
        } => moved(shape, targets, number, source, copy, seen),
        FinishPhase::Settle { targets, source } => FinishPhase::LeaveSource { targets, source },
        FinishPhase::LeaveSource { targets, .. } => next_target(shape, with_moved(targets)),
        FinishPhase::GiveUp { targets, gone } => next_target(shape, with_given_up(gone, targets)),
        FinishPhase::End(targets) => FinishPhase::End(targets),
    }
}

/// What a step of a finish changes.
pub(crate) fn finish_change(shape: &Shape, next: FinishPhase, seen: Word) -> Change
    requires { FitsFinish next }
    ensures { result ≡ finish_change shape.now next seen }
{
    match next {
        FinishPhase::End(targets) => ends(Done::Finished {
            moved: u64::from(targets.moved),
            abandoned: u64::from(targets.abandoned),
            gone: u64::from(targets.gone),
        }),
        FinishPhase::Directory(_)
        | FinishPhase::Back(_)
        | FinishPhase::Entry { .. }
        | FinishPhase::Lock { .. }
        | FinishPhase::Move { .. }
        | FinishPhase::Settle { .. }
        | FinishPhase::LeaveSource { .. }
        | FinishPhase::GiveUp { .. } => goes(Phase::Finish(finish_next(shape, next, seen))),
    }
}

/// The first step of a finish: of a section that is too early the own word, else the directory word of the first slot.
pub(crate) fn finish_start(pass: u32, epoch: u64, owned: Owned) -> Offer
    requires epoch { epoch ≤ LAST_EPOCH }
    requires bound { owned.bound < EPOCHS }
    ensures { result ≡ finish_start pass epoch owned }
{
    if is_early(epoch, owned.bound) {
        load(Kind::LoadSection, section_of(pass))
    } else {
        finish_offer(epoch, FinishPhase::Directory(first_target(owned.coll)))
    }
}

/// What that step changes.
pub(crate) fn finish_started(shape: &Shape, epoch: u64, owned: Owned, seen: Word) -> Change
    requires { owned.bound < EPOCHS }
    ensures { result ≡ finish_started shape.now epoch owned seen }
{
    if is_early(epoch, owned.bound) {
        ends(Done::Early {
            epoch,
            bound: owned.bound,
        })
    } else {
        finish_change(
            shape,
            FinishPhase::Directory(first_target(owned.coll)),
            seen,
        )
    }
}
