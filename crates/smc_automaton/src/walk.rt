//! How a begin goes on among sources and targets.
ghost use Rattle.std.specs.Prelude.{◌≡◌, ◌<◌, ◌≤◌};
ghost use Rattle.smc_core.specs.Begin.{ends_round, to_source, next_source, to_target, past_target, with_move, first_walk, source_owner, blank_field};
ghost use Rattle.smc_automaton.specs.FitsPhase.{FitsTarget};

use crate::size::{slots_of, width_of};
use crate::step::{ends, goes};
use smc_core::{BeginPhase, Change, Done, LAST_EPOCH, Phase, Walk};
use smc_shape::Shape;
use smc_words::{ENTRIES, Number};

/// The call ends with a round.
fn ends_round(epoch: u64, walk: Walk) -> Change
    requires { epoch ≤ LAST_EPOCH }
    ensures { result ≡ ends_round epoch walk }
{
    ends(Done::Round {
        coll: walk.coll,
        bound: epoch + 1,
        moves: u64::from(walk.moves),
    })
}

/// The walk looks at its source, or, where no slot is left, the call ends.
pub(crate) fn to_source(shape: &Shape, epoch: u64, walk: Walk) -> Change
    requires { epoch ≤ LAST_EPOCH }
    ensures { result ≡ to_source shape.now epoch walk }
{
    if walk.source < slots_of(shape, walk.coll) {
        goes(Phase::Begin(BeginPhase::SourceDirectory(walk)))
    } else {
        ends_round(epoch, walk)
    }
}

/// It looks at the next source.
pub(crate) fn next_source(shape: &Shape, epoch: u64, walk: Walk) -> Change
    requires epoch { epoch ≤ LAST_EPOCH }
    requires source { walk.source < ENTRIES }
    ensures { result ≡ next_source shape.now epoch walk }
{
    let next = Walk {
        source: walk.source + 1,
        ..walk
    };
    to_source(shape, epoch, next)
}

/// It looks at its target for this object, or, where none is left, the call ends.
pub(crate) fn to_target(epoch: u64, walk: Walk, number: Number) -> Change
    requires { epoch ≤ LAST_EPOCH }
    ensures { result ≡ to_target epoch walk number }
{
    if walk.target < walk.kept {
        goes(Phase::Begin(BeginPhase::TargetDirectory { walk, number }))
    } else {
        ends_round(epoch, walk)
    }
}

/// No slot is looked at twice for a target.
pub(crate) fn past_target(walk: Walk) -> Walk
    requires { FitsTarget walk }
    ensures { result ≡ past_target walk }
{
    Walk {
        target: walk.target + 1,
        ..walk
    }
}

/// One more entry is frozen.
pub(crate) fn with_move(walk: Walk) -> Walk
    requires { walk.moves < ENTRIES }
    ensures { result ≡ with_move walk }
{
    Walk {
        moves: walk.moves + 1,
        ..walk
    }
}

/// The walk over sources begins at the first slot above the kept blocks.
pub(crate) fn first_walk(coll: u8, kept: u32) -> Walk
    ensures { result ≡ first_walk coll kept }
{
    Walk {
        coll,
        source: kept,
        target: 0,
        kept,
        moves: 0,
    }
}

/// The entry of the source's owner is loaded; a source without one is passed.
pub(crate) fn source_owner(shape: &Shape, epoch: u64, walk: Walk, owner: Option<Number>) -> Change
    requires epoch { epoch ≤ LAST_EPOCH }
    requires source { walk.source < ENTRIES }
    ensures { result ≡ source_owner shape.now epoch walk owner }
{
    match owner {
        None => next_source(shape, epoch, walk),
        Some(number) => goes(Phase::Begin(BeginPhase::SourceEntry { walk, number })),
    }
}

/// The field of the target is blanked next, or, where it is none, the target gets its owner.
pub(crate) fn blank_field(shape: &Shape, walk: Walk, number: Number, field: u32) -> BeginPhase
    ensures { result ≡ blank_field shape.now walk number field }
{
    if field < width_of(shape, walk.coll) {
        BeginPhase::BlankField {
            walk,
            number,
            field,
        }
    } else {
        BeginPhase::StoreBack { walk, number }
    }
}
