//! After an undisturbed drive the present objects of a collection stand in the fewest blocks.
//!
//! `specs/Drive.antt` says what it is that a pass makes a drive: it waits until what was left may be used again, packs the
//! collection in a round, and finishes the round in a later section, call after call, while all other passes stand aside.
//! `laws` has the theorems, `specs/Packing.antt` says them: what a drive leaves, and what a survey tells.
//! `specs/Worked.antt` has two schedules after which a drive is made, one that moves an object and one that does not.
//!
//! In `proofs` there is what each step of a call keeps, for each call of a drive: `Begins` (over `Walks`, `Sources` and
//! `Targets`), `Finishes` and `Surveys`; `Waits` has the advances, one after the other. `Drives` puts the calls one after
//! the other; `Ends` says what is then known of the plain world of the logs. It stands on `smc_aside`, which carries what
//! each step keeps to a call's answer, on `smc_census`, which counts objects and blocks, and on `smc_inv_use`, which says
//! what slots and entries are at rest.
#![tactic(auto)]

pub mod laws;
