//! Scripts without groups are run on a region of their own, part by part.
//!
//! `script` has `run_script`, which runs a script that was read; `opened` opens its region, and closes it; `parts` runs its
//! parts in order, `command` one command, and `ending` says how the running ends, and writes a reply. `roomless` runs scripts
//! without rooms, which drop folds and do no more.
//!
//! How a run ends is defined in `specs/Runs.antt`. Below stand the commands of smc_desk; above, the program. Callers may rely
//! on it that a script that was read by `read_script` and has no unknown line may be run, that the closed region's pass has
//! made the calls of the commands and no others, and that each reply is written before the next command starts.
#![tactic(auto)]

mod command;
mod ending;
mod opened;
mod parts;
mod roomless;
mod script;

pub use ending::{Ran, RunEnd};
pub use script::run_script;
