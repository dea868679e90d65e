mod moves;
mod objects;

pub use moves::{BeginPhase, CancelPhase, Count, CountPhase, Counting, FinishPhase, Targets, Walk};
pub use objects::{AddPhase, CopyPhase, Finding, LookPhase, RemovePhase, ScanPhase, Seeker};

/// The call in progress: what its next step is, with all that the call has to remember.
#[derive(Clone, Copy)]
pub enum Phase {
    /// No call is in progress.
    Idle,
    /// The section says how far its beginning has come.
    Entering,
    /// Loads the section word of `pass`.
    Advancing { epoch: u64, pass: u32 },
    /// Moves the epoch on.
    Ready { epoch: u64 },
    Look(LookPhase),
    Add(AddPhase),
    Remove(RemovePhase),
    Scan(ScanPhase),
    Begin(BeginPhase),
    Finish(FinishPhase),
    Cancel(CancelPhase),
    Survey(CountPhase),
}
