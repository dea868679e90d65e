//! The words of a region as values, each packed into a `u64` and back, and the want of memory that any crate can meet.
//!
//! `entry`, `dir`, `number` and `round` have a kind of word each, `layout` has the limits of their parts, `laws` says
//! that no two values have one word, and `memory` has `NoMemory`. The lowest crate: it stands on nothing, takes no
//! memory, and every other crate may rely on its types. Which values fit a word, and how they are packed, is defined in
//! `specs/Entry.antt`, `Dir.antt`, `Number.antt` (with the order of numbers) and `RoundWord.antt`.
#![tactic(auto)]

mod dir;
mod entry;
pub mod laws;
mod layout;
mod memory;
mod number;
mod round;

pub use dir::Dir;
pub use entry::Entry;
pub use layout::{BLANK, COLLECTIONS, ENTRIES, EPOCHS, INCARNATIONS, PASSES};
pub use memory::NoMemory;
pub use number::Number;
pub use round::RoundWord;
