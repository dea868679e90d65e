//! Scans in a world that stands still: what they visit is what is present.
//!
//! `specs/Still.antt` says which events leave the world as it is, and what is present in it, by number; `laws` has what follows
//! from the rule of scans for one that only such events come between.
//! Below stand the worlds and the rule of scans; above, what scripts print that are run alone. No code that runs is here.
#![tactic(auto)]

pub mod laws;
