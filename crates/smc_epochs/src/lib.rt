//! The epoch of a region, counted by the answers that moved it on.
//!
//! `specs/Epochs.antt` says it of the end of every history: the epoch is the opening's and one more for each answer
//! `Advanced` that a pass has kept, each answer that names an epoch names one up to it, and an advance finds the last epoch
//! (`Spent`) only where that many were kept. `laws` has the theorem. In `proofs`, `EpochSteps.antt` says what each step makes
//! of the epoch, by its answer, and `EpochsCounted.antt` follows lists of steps. Below are the calls of a trace
//! (`smc_calls`) and what every state keeps (`smc_inv_use`); the chronicle of a region stands above.
#![tactic(auto)]

pub mod laws;
