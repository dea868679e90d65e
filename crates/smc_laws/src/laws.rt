//! Each function is a theorem over the definitions in `specs`, and does nothing.
ghost use Rattle.smc_core.specs.Schedules.{abandoned, helped};
ghost use Rattle.smc_laws.specs.Laws.{AllRules, HoldAfter, KeepsPlaces, LeavesAlone, Relocation};
ghost use Rattle.smc_rules.specs.History.{HoldsAlways};
ghost use Rattle.smc_rules.specs.SlotRule.{SlotRule};

use smc_core::laws::schedules_are_reached;

/// Who owns each slot and entry, and which objects are where, is as the slot rule says, after every list of steps.
pub fn slot_rule_holds()
    ensures { HoldsAlways SlotRule }
{}

/// What becomes of objects that a round moves, and of those who read them meanwhile, is as the relocation rule says.
pub fn relocation_rule_holds()
    ensures { HoldsAlways Relocation }
{}

/// All three rules hold of the state of each history.
pub fn all_rules_hold()
    ensures { HoldsAlways AllRules }
{}

/// They hold after worked schedules: one in which a reader abandons a move, and one in which a reader helps one.
pub fn all_rules_hold_after_worked_schedules()
    ensures abandoned { HoldAfter abandoned }
    ensures helped { HoldAfter helped }
{
    schedules_are_reached();
}

/// A step that finds an object which its section already holds finds it in the same slot.
pub fn places_are_kept()
    ensures { HoldsAlways KeepsPlaces }
{}

/// What a section holds is claimed by nobody, nor is what a call in progress copies from or to.
pub fn held_is_left_alone()
    ensures { HoldsAlways LeavesAlone }
{}
