//! Each call ends within a bound of its pass's own steps, exact by the width of its collection, whatever other passes do.
//!
//! `laws` has the theorems. `specs/Bounds.antt` says how many steps each call takes at most, `specs/Scans.antt` how many a
//! scan takes over all calls that go on with it, and `specs/Kept.antt` what else each pass keeps, which only the proofs
//! need. It stands on `smc_inv_bound`, which counts what a call has left, and on `smc_inv_range`, by which a word that names
//! an object names one of its own collection. A caller relies on the bounds from whatever state steps have reached.
#![tactic(auto)]

pub mod laws;
