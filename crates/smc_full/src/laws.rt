//! Each function is a theorem over the definitions in `specs`, and does nothing.
ghost use Rattle.smc_model.specs.declared.event.Cause.TheVariants.{Slots};
ghost use Rattle.smc_core.specs.declared.done.Done.TheVariants.{Full, Made};
ghost use Rattle.smc_full.specs.Laws.{BothAreExact, FullRefusesBoth, SecondIsExact};
ghost use Rattle.smc_full.specs.Worked.{TriedAfter, with_room, without_room};

use smc_core::laws::{schedules_are_reached, steps_are_computed};

/// After three advances an add is refused exactly where each slot of the collection has a present object.
pub fn a_second_try_is_exact()
    ensures { SecondIsExact }
{}

/// Both tries are refused exactly where each slot had a present object at the first one.
pub fn two_tries_are_exact()
    ensures { BothAreExact }
{}

/// Where each slot has a present object every try is refused.
pub fn a_full_collection_refuses()
    ensures { FullRefusesBoth }
{}

/// Worked schedules after which both tries find a slot, and find none.
pub fn worked_tries()
    ensures room { TriedAfter (Made 0) (Made 1) with_room }
    ensures full { TriedAfter (Full Slots) (Full Slots) without_room }
{
    steps_are_computed();
    schedules_are_reached();
}
