//! What a trace says of calls that were alone: by the logs and the answers all other passes stood aside meanwhile.
//!
//! `specs/AloneCalls.antt` says when calls of a trace are alone. The calls have files of their own: those behind which an add
//! is refused only for want of a slot (`specs/Ripening.antt`), drives and surveys (`specs/Drives.antt`), and what it is that no
//! other pass holds a call up (`specs/Calm.antt`). `specs/Laws.antt` says what is true of the region then, and `laws` has the
//! theorems: such an add is refused since the collection is full, a survey tells its objects and, behind a drive, the fewest
//! blocks for them, and no advance is held back. `specs/Worked.antt` has such calls, as schedules.
//! Below are the calls of a trace (`smc_calls`), Alone by logs and answers (`smc_refine`), and what undisturbed calls rely
//! on (`smc_full`, `smc_packing`); the chronicle of a region (`smc_chronicle`) stands above and puts each into one order.
#![tactic(auto)]

pub mod laws;
