//! The steps that copy an object from its source slot to its target.
ghost use Rattle.std.specs.Prelude.{◌≡◌};
ghost use Rattle.smc_core.specs.Look.{copy_offer, copy_field, copy_next};
ghost use Rattle.smc_automaton.specs.FitsPhase.{FitsCopy};

use crate::op::{entry_of, exchange, field_of, forward, load, locked, present};
use crate::size::width_of;
use smc_core::{CopyPhase, Kind, Offer, Word};
use smc_shape::Shape;
use smc_words::{BLANK, Number};

/// The step of copying an object from this slot.
pub(crate) fn copy_offer(number: Number, source: u32, next: CopyPhase) -> Offer
    ensures { result ≡ copy_offer number source next }
{
    let coll = number.coll;
    match next {
        CopyPhase::Target => load(Kind::LoadForward, forward(coll, source)),
        CopyPhase::Load { field, .. } => load(Kind::LoadField, field_of(coll, source, field)),
        CopyPhase::Put {
            target,
            field,
            value,
        } => exchange(
            Kind::CopyField,
            field_of(coll, target, field),
            Word::Plain(BLANK),
            Word::Plain(value),
        ),
        CopyPhase::Swing { target } => exchange(
            Kind::Swing,
            entry_of(number),
            locked(number, source),
            present(number, target),
        ),
    }
}

/// The field is copied next, or, where it is none, the entry swings.
fn copy_field(shape: &Shape, coll: u8, target: u32, field: u32) -> CopyPhase
    ensures { result ≡ copy_field shape.now coll target field }
{
    if field < width_of(shape, coll) {
        CopyPhase::Load { target, field }
    } else {
        CopyPhase::Swing { target }
    }
}

/// What follows a step of copying. Nothing of it follows the swing.
pub(crate) fn copy_next(shape: &Shape, coll: u8, next: CopyPhase, seen: Word) -> CopyPhase
    requires { FitsCopy next }
    ensures { result ≡ copy_next shape.now coll next seen }
{
    match next {
        CopyPhase::Target => copy_field(shape, coll, seen.forward(), 0),
        CopyPhase::Load { target, field } => CopyPhase::Put {
            target,
            field,
            value: seen.plain(),
        },
        CopyPhase::Put { target, field, .. } => copy_field(shape, coll, target, field + 1),
        CopyPhase::Swing { target } => CopyPhase::Swing { target },
    }
}
