//! Every word of a reachable region and every call in progress keeps its range, so each offered operation is on a word
//! of the region.
//!
//! `laws` has the theorems. `specs/Ranges.antt` says what a word keeps, `specs/Calls.antt` what a call in progress keeps,
//! and `specs/Laws.antt` what follows: a row of numbers that steps reach mirrors a memory, whole, and each operation that
//! a pass offers there fits the row. It stands on the machine's definitions and on `smc_rules`; a running region rests on
//! it when it acts on a word.
#![tactic(auto)]

pub mod laws;
