//! Each function is a theorem over the definitions in `specs`, and does nothing.
ghost use Rattle.smc_agreement.specs.Kept.{BeginsAgreed};

/// A region without objects begins with the agreement.
pub fn regions_begin_agreed()
    ensures { BeginsAgreed }
{}
