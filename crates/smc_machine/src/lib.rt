//! The machine that runs: the plain program of the machine's definitions, one atomic step at a time.
//!
//! `machine` has `Machine`, which is opened and stepped here, and `schedule` plays schedules on it; `row` keeps the
//! numbers of a region, which `smc_row` opens, packs and reads; `pass` has what one pass knows: `stand` and `scans`
//! where it stands, `kept` what only grows, `told` what the other passes allow. `grow` and `event` take the memory of a
//! step before it changes anything. It stands on the definitions, on the automaton of one pass and on the row. Callers
//! may rely on it that each step is that of the definitions, that each refusal has its cause, and that a refused step
//! changes nothing.
//!
//! The meaning of a step is defined in the crate of the definitions. Here `specs/Running.antt` says what callers see of
//! a machine and what a step tells, `Faults.antt` why a step is refused, and the others what only the proofs need.
#![tactic(auto)]

mod event;
mod grow;
mod kept;
pub mod laws;
mod machine;
mod pass;
mod row;
mod scans;
mod schedule;
mod stand;
mod step;
#[cfg(test)]
mod tests;
mod told;

pub use machine::Machine;
pub use schedule::play;
pub use step::{MOST_BEGUN, PlayFault, Step, StepFault};
