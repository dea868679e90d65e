//! Each function is a theorem over the definitions in `specs`, and does nothing.
ghost use Rattle.smc_inv_epoch.specs.Epochs.{EpochsAreKept, EpochRuleHolds, HoldsAfter};
ghost use Rattle.smc_inv_epoch.specs.Rounds.{RoundsAreKept, RoundWordRuleHolds};
ghost use Rattle.smc_core.specs.Schedules.{announces_twice, helped};

use smc_core::laws::schedules_are_reached;

/// Every step keeps the epoch rule and what it needs of words and local states.
pub fn epochs_are_kept()
    ensures { EpochsAreKept }
{}

/// After every list of steps the epoch rule holds, of a memory that the row mirrors as far as the rule reads it.
pub fn epoch_rule_holds()
    ensures { EpochRuleHolds }
{}

/// It holds after worked schedules: one in which a section is announced twice while advances go on, and one in which a
/// reader helps to move an object.
pub fn epoch_rule_holds_after_worked_schedules()
    ensures announces_twice { HoldsAfter announces_twice }
    ensures helped { HoldsAfter helped }
{
    schedules_are_reached();
}

/// Every step keeps what the round word tells, and what that needs.
pub fn rounds_are_kept()
    ensures { RoundsAreKept }
{}

/// After every list of steps the round word names the one pass that owns a round, and no calm section is past its bound.
pub fn round_word_rule_holds()
    ensures { RoundWordRuleHolds }
{}
