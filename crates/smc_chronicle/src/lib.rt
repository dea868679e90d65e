//! The chronicle of a region: what its logs and answers tell is true at its place of the one order.
//!
//! A history has one order of events, that of its steps (`history_order` of `smc_rules`, lawful by `smc_refine`).
//! `specs/Places.antt` says what a place of it is, and the world there; `specs/Chronicle.antt` says what is true: each trace
//! was made call by call and each of its events has a place; no more objects are present than there are slots, and an add
//! that was made found room; one that was refused alone, behind three advances with nothing removed since, found the collection
//! full; a survey tells its objects and, behind a drive, the fewest blocks; no other pass holds up a call that is alone; and the
//! epoch is counted by answers. `laws` has the theorem. Below are the calls of a trace (`smc_calls`), those that are alone
//! (`smc_alone`) and the epoch (`smc_epochs`); `smc_history` above gives it for a region that was closed.
#![tactic(auto)]

pub mod laws;
