//! Each function is a theorem over the definitions in `specs`, and does nothing.
ghost use Rattle.smc_trace.specs.TraceLaws.{TellsThen, TraceGrows, TraceIsOne};

/// A pass has at most one trace.
pub fn a_trace_is_one()
    ensures { TraceIsOne }
{}

/// What is done behind other calls is done behind them.
pub fn calls_are_appended()
    ensures { TellsThen }
{}

/// A trace grows by the calls that the pass goes on by.
pub fn a_trace_grows()
    ensures { TraceGrows }
{}
