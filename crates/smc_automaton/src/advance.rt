//! The steps that move the epoch on by one.
ghost use Rattle.std.specs.Prelude.{◌≡◌, ◌<◌};
ghost use Rattle.smc_core.specs.Change.{advance_next, section_seen, ready_seen};

use crate::step::{ends, goes};
use smc_core::{Change, Done, LAST_EPOCH, Phase};
use smc_shape::Shape;
use smc_words::PASSES;

/// It looks at the section word of this pass next, or, where it has looked at each, moves the epoch on.
pub(crate) fn advance_next(shape: &Shape, epoch: u64, other: u32) -> Phase
    ensures { result ≡ advance_next shape.now epoch other }
{
    if other < shape.passes() {
        Phase::Advancing { epoch, pass: other }
    } else {
        Phase::Ready { epoch }
    }
}

/// By the section word of a pass: one of another epoch stops the advance.
pub(crate) fn section_seen(shape: &Shape, epoch: u64, other: u32, seen: u64) -> Change
    requires { other < PASSES }
    ensures { result ≡ section_seen shape.now epoch other seen }
{
    if seen == 0 || seen == epoch {
        goes(advance_next(shape, epoch, other + 1))
    } else {
        ends(Done::NotYet { pass: other, seen })
    }
}

/// By the epoch that was seen when it was to be moved on.
pub(crate) fn ready_seen(epoch: u64, seen: u64) -> Change
    requires { epoch < LAST_EPOCH }
    ensures { result ≡ ready_seen epoch seen }
{
    if seen == epoch {
        ends(Done::Advanced { epoch: epoch + 1 })
    } else {
        ends(Done::Overtaken { seen })
    }
}
