//! When an add is refused, where one pass works and the others stand aside.
//!
//! `specs/Full.antt` says what it is that a pass tries to add twice, with three advances of the epoch between the tries, and
//! what it is that a collection is full; `specs/Laws.antt` what is proved: after the advances an add is refused exactly
//! where each slot has a present object, and both tries are refused exactly where each had one at the first.
//! `specs/Worked.antt` has two schedules, with room and without, after which such tries are made.
//! `proofs/Adds.antt` says what each step of an add keeps, `proofs/Turns.antt` where a call leaves the pass,
//! `proofs/Fullness.antt` what the answer of an add says of a region at rest, and `proofs/Tries.antt` joins them. It stands
//! on `smc_aside`, which carries what each step keeps to a call's answer, and on `smc_inv_use`.
#![tactic(auto)]

pub mod laws;
