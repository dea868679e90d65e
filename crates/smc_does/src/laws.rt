//! Each function is a theorem over the definitions in `specs`, and does nothing.
ghost use Rattle.smc_does.specs.Laws.{DoesAll, DoesThen, HeldOnce, StaysThen};

/// One thing is done after the other.
pub fn doings_are_joined()
    ensures { DoesThen }
{}

/// A section that goes on twice goes on.
pub fn goings_on_are_joined()
    ensures { StaysThen }
{}

/// What a pass has done since it was new is its trace.
pub fn doings_are_the_trace()
    ensures { DoesAll }
{}

/// What a section holds it holds in one slot, however often the object is looked up again.
pub fn held_once()
    ensures { HeldOnce }
{}
