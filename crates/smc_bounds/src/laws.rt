//! Each function is a theorem over the definitions in `specs`, and does nothing.
ghost use Rattle.smc_bounds.specs.Bounds.{CallsAreBounded};
ghost use Rattle.smc_bounds.specs.Scans.{ScansAreBounded};

/// Each call that is started in a reachable state ends within its bound of own steps, whatever the other passes do.
pub fn calls_are_bounded()
    ensures { CallsAreBounded }
{}

/// A scan takes no more own steps than its bound in all, whatever calls its section makes and other passes do meanwhile.
pub fn a_scan_is_bounded()
    ensures { ScansAreBounded }
{}
