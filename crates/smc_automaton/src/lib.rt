//! The automaton of one pass, running: what the pass may do next, and what a step changes of it.
//!
//! `offer` and `change` choose by the call; `start` and `started` have the first step of each call, and `ask` what it
//! asks. The steps that follow have a file for each call: `section`, `advance`, `look` (with `find` and `copy`), `add`
//! (with `claim`), `remove`, `scan`, `count`, `begin` (with `walk`), `finish` (with `targets`) and `cancel`, over what
//! `op`, `step`, `seen` and `size` share. `effect` says what a step makes of a pass's lists, `after` of its other
//! parts, and `laws` which ranges each step keeps.
//!
//! It stands on the machine's definitions and touches no region: it is told what a step was shown, and only the last
//! step of an add takes memory. Callers may rely on it that every answer is that of the definitions. Here `specs` say
//! only the ranges that keep sums from passing their types: `Fits` and `FitsPhase` of a pass, `FitsWord` of the words
//! of a region; and `Effects` says how an effect applies to a list.
#![tactic(auto)]

mod add;
mod advance;
mod after;
mod ask;
mod begin;
mod cancel;
mod change;
mod claim;
mod copy;
mod count;
mod effect;
mod find;
mod finish;
pub mod laws;
mod look;
mod offer;
mod op;
mod remove;
mod scan;
mod section;
mod seen;
mod size;
mod start;
mod started;
mod step;
mod targets;
mod walk;

pub use after::{begun_after, noted_after, round_after, section_after};
pub use change::changed;
pub use effect::{Cursor, ScanEffect, cursor_effect, scan_effect};
pub use offer::offered;
