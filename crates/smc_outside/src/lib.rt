//! The outside world: everything that a program here reads or writes goes through a `Source`, a `Shelf` or a `Sink`.
//!
//! `failed` has the one error with its count, `source`, `shelf` and `sink` the traits and `write_all`, `mem_source`,
//! `mem_shelf` and `mem_sink` the versions in memory, over `calls` and `copy`. `real` has the adapters for std's readers
//! and writers, and `dir_shelf` the files of the current folder: the trusted edge. `gate` is what workers of a group pass before
//! their commands. It stands on `smc_words`; each crate that reads or writes stands on it, and may rely on this: told bytes move as the
//! answers say, and a call fails only where the count of faults rose. `specs/Causes.antt` defines why a call may fail,
//! `specs/Told.antt` and `specs/Pieces.antt` what becomes of told bytes, `specs/InMemory.antt` the
//! versions in memory, `specs/Shelves.antt` files by name, and `specs/Folder.antt` which names a folder has.
#![tactic(auto)]

mod calls;
mod copy;
mod dir_shelf;
mod failed;
mod gate;
mod mem_shelf;
mod mem_sink;
mod mem_source;
mod real;
mod shelf;
mod sink;
mod source;

pub use dir_shelf::DirShelf;
pub use failed::Failed;
pub use gate::{Gate, OpenGate};
pub use mem_shelf::MemShelf;
pub use mem_sink::MemSink;
pub use mem_source::MemSource;
pub use real::{StdSink, StdSource};
pub use shelf::Shelf;
pub use sink::{Sink, write_all};
pub use source::Source;
