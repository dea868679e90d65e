//! What happened in a region that ran: the laws over histories, as a caller of the region uses them.
//!
//! `Region::close` tells that the words and the passes of a closed region are a state that the machine reaches
//! (`IsReached` of `smc_region`). Such a state has a history, and each law of `smc_refine`, `smc_census` and `smc_chronicle`
//! is true of it: the logs of the passes have one order, which is that of the steps; it replays on a plain map from the empty
//! one, each scan visits once what is present throughout; what the answers tell is true at its place of it (an add that was
//! refused alone found the collection full, a survey counted what was present); and as many objects are present as the words
//! of the region show, in so many blocks. `specs/Happened.antt` says so; `laws` has the theorem. Below are the laws and the
//! region; whoever closes a region stands above, and may rely on this without a list of steps of its own.
#![tactic(auto)]

pub mod laws;
