//! Every call ends: each step that goes on with one leaves fewer steps, whatever the other passes do.
//!
//! `laws` has the theorem, and `specs/Left.antt` says how many steps a call in progress has left at most, by how wide a
//! record of each collection is taken to be. It stands on the machine's definitions alone. A program that goes on with a
//! call until it ends rests on the theorem for its own end; `smc_bounds` counts by the widths that records have.
#![tactic(auto)]

pub mod laws;
