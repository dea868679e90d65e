//! However the passes' steps interleave, their logs are the history of a plain map, in one order; and where a pass was
//! alone, by the logs and the answers, nobody disturbed it.
//!
//! `laws` has the theorems. `specs/Orders.antt` says the first: the events of a list of steps, in the order of the steps,
//! have each log as that pass has it, know what was told, lead from the first world to that of the state reached, and
//! visit by each scan, once, what is present throughout; a history goes on, and is cut at its steps and its events. `specs/Alone.antt` says the other: what logs and answers have to
//! tell for events of a log to be alone, and that all other passes stood aside then; `specs/Worked.antt` has schedules.
//! Callers may rely on all of these laws. `smc_census` and `smc_packing` stand above.
//!
//! `proofs/EventLaws.antt` says that what a step tells may happen at its moment, `proofs/OrderSteps.antt` what a step adds
//! to the order; `proofs/ScanSteps.antt` what it makes of its section's scans, `proofs/Histories.antt` what an event makes
//! of the history of a scan, `proofs/ScansKnown.antt` that the rule of scans is kept. `proofs/Ordered.antt` joins them.
//! `proofs/OwnLogs.antt`, `OwnSteps.antt` and `OwnAlong.antt` say that a pass's log and answers tell where it stands,
//! `proofs/Onward.antt` how it goes on until its next event, `proofs/ToldKnown.antt` that what was told has happened;
//! `proofs/AloneLaws.antt` joins these. The crate stands on `smc_laws`, on `smc_inv_scan` for the marks of scans, and on
//! `smc_aside` for what it is to stand aside.
#![tactic(auto)]

pub mod laws;
