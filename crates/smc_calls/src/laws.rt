//! Each function is a theorem over the definitions in `specs`, and does nothing.
ghost use Rattle.smc_calls.specs.Laws.{CallsAreMade, StretchIsMade, UndisturbedCallsAreMade};
ghost use Rattle.smc_calls.specs.Worked.{first_trace, removes_twice, HasTraceAfter};

/// Each pass that is idle has one trace, and has made its calls in the steps that led there, one after the other.
pub fn calls_are_made()
    ensures { CallsAreMade }
{}

/// Each stretch of its trace was made between two moments of these steps.
pub fn a_stretch_is_made()
    ensures { StretchIsMade }
{}

/// Calls that are made while the others stand aside are made undisturbed, each with the answer that its end keeps.
pub fn undisturbed_calls_are_made()
    ensures { UndisturbedCallsAreMade }
{}

/// A worked schedule, and the trace of its first pass.
pub fn a_worked_trace()
    ensures { HasTraceAfter removes_twice 0 first_trace }
{}
