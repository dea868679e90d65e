//! A slot that is in use has a user, and what a region at rest has in its slots and entries.
//!
//! `laws` has the theorems; `specs/Uses.antt` says who uses a slot, `specs/Rest.antt` what slots and entries are where no
//! call is in progress but advances, and `specs/Laws.antt` what is proved. One lemma for each kind of step stands in
//! `proofs` in files that `tools/laws.sh` writes; `proofs/UseLaws.antt` has what they cite, `proofs/Used.antt` joins them
//! with all that `smc_laws` keeps, `proofs/RestLaws.antt` reads off what holds at rest, and `proofs/EpochsTold.antt` what
//! is told of epochs to a pass that is alone. It stands on `smc_laws` and `smc_aside`; what is said of full collections
//! and of packing rests on it.
#![tactic(auto)]

pub mod laws;
