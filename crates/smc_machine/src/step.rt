//! What a step tells, and why it may be refused.
use smc_core::Done;
use smc_model::Event;

/// The most scans that a pass begins, and the most notes that it makes.
pub const MOST_BEGUN: u32 = u32::MAX;

/// What a step tells.
#[derive(Debug, Drop)]
pub struct Step {
    /// What it adds to the log of its pass.
    pub event: Option<Event>,
    /// The answer of the call that it ends.
    pub done: Option<Done>,
}

/// Why a step is not taken.
#[derive(Clone, Copy, Debug, PartialEq, Eq)]
pub enum StepFault {
    /// The region has no such pass.
    NoPass,
    /// The pass may not take such a step now.
    NotOffered,
    /// The pass has begun as many scans, or made as many notes, as it may.
    CountSpent,
    /// Memory was refused.
    NoMemory,
}

/// A step of a schedule that was refused: how many were taken before it, and why.
#[derive(Clone, Copy, Debug, PartialEq, Eq)]
pub struct PlayFault {
    pub at: u64,
    pub fault: StepFault,
}
