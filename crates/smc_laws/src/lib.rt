//! The three rules hold after every list of steps.
//!
//! `laws` has the theorems, over every shape, opening, start and list of steps; `specs/Laws.antt` says them. The parts that each
//! kind of step keeps (`smc_inv_epoch`, `smc_inv_range`, `smc_inv_slot`, `smc_inv_move`) are joined in
//! `proofs/Everything.antt` by one induction over the list; `proofs/SlotLaws.antt` and `proofs/MoveLaws.antt` read the rules
//! off what is then known, and `proofs/PlaceLaws.antt` that what a section holds keeps its place and is claimed by nobody.
//! A running region and the one order of its logs rest on this crate.
#![tactic(auto)]

pub mod laws;
