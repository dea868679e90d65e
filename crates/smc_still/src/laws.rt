//! Each function is a theorem over the definitions in `specs`, and does nothing.
ghost use Rattle.smc_still.specs.Still.{CountsAreNumbers, VisitsArePresent};

/// What a scan visits, while the world stands still, are the present objects of its collection, each once.
pub fn visits_are_present()
    ensures { VisitsArePresent }
{}

/// There are as many numbers of present objects as there are present objects.
pub fn counts_are_numbers()
    ensures { CountsAreNumbers }
{}
