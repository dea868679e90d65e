//! Each function is a theorem over the definitions in `specs`, and does nothing.
ghost use Rattle.smc_inv_use.specs.Laws.{EntriesAtRest, SlotsAtRest, ValidIsUsed};
ghost use Rattle.smc_rules.specs.History.{HoldsAlways};

/// A slot that is in use has a user: an object, present or removed, or an add or a finish in progress.
pub fn valid_slots_are_used()
    ensures { HoldsAlways ValidIsUsed }
{}

/// Where no call is in progress but advances, and no round, each slot is free, or left for later use, or has one present
/// object, whose record is its fields.
pub fn slots_at_rest()
    ensures { HoldsAlways SlotsAtRest }
{}

/// There each entry is free, or its object is present in a valid slot.
pub fn entries_at_rest()
    ensures { HoldsAlways EntriesAtRest }
{}
