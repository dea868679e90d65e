//! The machine: what each pass may do next, one atomic step at a time, over one row of 64-bit words.
//!
//! `word` and `op` have what a step reads and writes, `kind` which kinds of step there are, `section` and `phase` where a pass stands, `call` what it may
//! choose, `change` what a step changes, `done` what a call answers, `local` all that a pass knows, and `laws` what the
//! definitions say of worked schedules. It stands on the words, the places and the events of the plain world. The
//! crates above may rely on every definition here: they say in `Steps` and `Reach` what a running region does.
//!
//! The meaning is in `specs`: a file for each call (`Look`, `Add`, `Begin` ..), `Offer` and `Change`, which choose
//! among them, `Local` (what a step leaves of a pass), `Row` (what it makes of the words), `Machine` (steps and lists
//! of them), and `Played` with `Schedules` (schedules that are played on it).
#![tactic(auto)]

mod call;
mod change;
mod done;
mod kind;
pub mod laws;
mod local;
mod op;
mod phase;
mod section;
mod word;

pub use call::{Call, Choice};
pub use change::Change;
pub use done::Done;
pub use kind::{Deed, Kind};
pub use local::{Answer, Held, Learnt, Local, Opening, Owned, Scan, Stand};
pub use op::{Offer, Op};
pub use phase::{
    AddPhase, BeginPhase, CancelPhase, CopyPhase, Count, CountPhase, Counting, Finding,
    FinishPhase, LookPhase, Phase, RemovePhase, ScanPhase, Seeker, Targets, Walk,
};
pub use section::{FIRST_EPOCH, LAST_EPOCH, Section};
pub use word::{State, Word};
