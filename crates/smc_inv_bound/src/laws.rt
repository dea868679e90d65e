//! Each function is a theorem over the definitions in `specs`, and does nothing.
ghost use Rattle.smc_inv_bound.specs.Left.{CallsEnd};

/// A step that goes on with a call leaves fewer steps than there were left.
pub fn calls_end()
    ensures { CallsEnd }
{}
