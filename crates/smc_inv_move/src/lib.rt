//! Each kind of step keeps what calls in progress, copies and the targets of a round say alike.
//!
//! `laws` has the theorems: from a state that has the whole agreement, every step leads to one in which each call still
//! knows what it has stored or seen, each copier has its one target, and each frozen or locked object is on its way. One
//! lemma for each kind of step, with one field for each fact, stands in `proofs`: these files are written by
//! `tools/laws.sh` from the tables beside it, and no hand edits them. It stands on `smc_agreement`; `smc_laws` joins it
//! with `smc_inv_slot`.
#![tactic(auto)]

pub mod laws;
