//! The plain world of objects: a finite map with no words, blocks or threads, against which all promises are stated.
//!
//! `record` has the words of an object, `object` an object, `event` what can happen, `tree` how a tree of objects
//! changes, `model` a world that runs, and `laws` what the definitions imply. It stands on `smc_words` alone. Callers
//! may rely on it that every answer of `Model` is that of the definitions.
//!
//! What a world is and how an event changes it is defined in `specs/World.antt`, the rule of scans in
//! `specs/Scans.antt`, and when the logs of several passes are the history of one world in `specs/Order.antt`.
#![tactic(auto)]

mod event;
pub mod laws;
mod model;
mod object;
mod record;
mod tree;

pub use event::{Cause, Event, Reply};
pub use model::Model;
pub use object::Object;
pub use record::Record;
