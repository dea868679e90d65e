//! Each kind of step keeps what slots, entries, objects and records say alike.
//!
//! `laws` has the theorems: from a state that has the whole agreement, every step leads to one in which what is claimed or
//! removed belongs to one call, what is held keeps its place, and the fields of slots are records of the plain world. One
//! lemma for each kind of step, with one field for each fact, stands in `proofs`: these files are written by
//! `tools/laws.sh` from the tables beside it, and no hand edits them. It stands on `smc_agreement`; `smc_laws` joins it
//! with `smc_inv_move`.
#![tactic(auto)]

pub mod laws;
