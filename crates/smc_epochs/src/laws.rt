//! Each function is a theorem over the definitions in `specs`, and does nothing.
ghost use Rattle.smc_epochs.specs.Epochs.{EpochsAreCounted};

/// The epoch is the opening's and one more for each answer that moved it on, and answers name epochs up to it.
pub fn epochs_are_counted()
    ensures { EpochsAreCounted }
{}
