//! Each function is a theorem over the definitions in `specs`, and does nothing.
ghost use Rattle.smc_inv_move.specs.Laws.{CallsAreKept, CopiesAreKept, MovesAreKept};

/// What a call in progress has stored or seen still stands, after every step.
pub fn calls_are_kept()
    ensures { CallsAreKept }
{}

/// One who copies has one target, and it is the source's, after every step.
pub fn copies_are_kept()
    ensures { CopiesAreKept }
{}

/// Each target is that of one object, and each frozen or locked object has one, after every step.
pub fn moves_are_kept()
    ensures { MovesAreKept }
{}
