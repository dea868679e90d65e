//! Rounds: the objects of a collection move to its front, so that whole blocks come free.
//!
//! `rounds` begins one (`begun` is how that ends), `ending` finishes it and `cancelling` gives it up; `counting` walks a
//! collection and counts its objects. `driving` is a round from begin to end, with the epochs that it waits for (`outcome` is
//! how it ends), and `packing` a drive with a count behind it. `laws` has what follows from the calls that a drive made.
//!
//! Below stands the region, whose steps these calls are made of; scripts stand above. Callers may rely on the form of
//! `smc_does`: which calls of the machine each call made, with their answers. What a call needs and leaves is in
//! `specs/Calls.antt`, what a drive does in `Drives` and `Waits`, and what packing does in `Packs`; the other files say how
//! the private parts go on.
#![tactic(auto)]

mod begun;
mod cancelling;
mod counting;
mod driving;
mod ending;
pub mod laws;
mod outcome;
mod packing;
mod rounds;

pub use begun::{Begun, Round};
pub use cancelling::cancel;
pub use counting::{Census, survey};
pub use driving::drive;
pub use ending::{Finished, finish};
pub use outcome::Outcome;
pub use packing::{Packed, pack};
pub use rounds::begin;
