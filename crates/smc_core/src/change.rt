use crate::done::Done;
use crate::local::Held;
use crate::phase::Phase;
use smc_model::Event;

/// What a step changes, beside the section, the round and the scans.
#[derive(Drop)]
pub struct Change {
    /// What it adds to the log.
    pub event: Option<Event>,
    /// The answer of the call that it ends.
    pub answer: Option<Done>,
    /// What the section holds from now on.
    pub holds: Option<Held>,
    /// Where it leaves the call.
    pub phase: Phase,
}
