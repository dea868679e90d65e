//! What a pass has done is one list: its calls that ended.
//!
//! `specs/Trace.antt` says what is kept of a call that ended (`CallEnd`: the event that it told, if it told one, and its
//! answer), what a log and kept answers are where these calls were made (`IsTrace`), and how they grow (`Tells`).
//! `specs/Named.antt` has the end of each call, by what it answers. `laws` has what follows: a pass has one trace, and
//! traces grow by what was done. Below stand the machine and its events, above it the calls of a running region. Callers
//! may rely on all of it; the lemmas are in `proofs/TraceSteps.antt`.
#![tactic(auto)]

pub mod laws;
