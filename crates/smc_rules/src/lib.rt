//! The rules that a running region keeps, said of its memory as data, and what carries a rule over lists of steps.
//!
//! There is no code here but `laws`, the theorems. Above the machine of `smc_core`, `specs` has the memory (`Memory`,
//! and `Reads`: what it says), when the row of numbers mirrors it (`Mirror`), and the states that rules speak of, with
//! what a step makes of them (`State`). The rules themselves stand in `EpochRule`, `SlotRule` and `RelocationRule`, over
//! `Calls`: what a call in progress has claimed, owes and copies. A reader has to believe these three and nothing else;
//! `EpochAgreement` and `RoundAgreement` are there for the proof alone. A crate above proves that each step keeps a
//! rule (`IsKept`), and has from `proofs/HistoryLaws` that it holds of the state of every `History`: from each start
//! (`Start`: a row at rest, with the objects of a first world), after every list of steps. `smc_inv_epoch` does so for the
//! epoch rule and the round word, `smc_laws` for all three.
#![tactic(auto)]

pub mod laws;
