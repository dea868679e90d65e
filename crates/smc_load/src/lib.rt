//! Loading: the rows of a file become objects of a collection.
//!
//! `references` finds the numbers of the objects that a row refers to, by their keys; `rows` adds the row with them, in a
//! section of its own, and puts its key; `table` does so for each row of a text, and `files` for a file of a shelf, which it
//! reads whole into a `file_text`. `fault` says why not all rows were loaded. Below stand smc_tbl, which reads a line into
//! the words of a row, smc_types with the keys, smc_objects, which adds an object, and smc_outside with its shelves; above,
//! the crates that run scripts.
//!
//! Callers may rely on it that the calls of the pass are those of these objects, that no key but theirs is put, and that
//! the rows before a fault stay. What is added for a row is defined in `specs/Loading.antt`, what of a text in
//! `specs/Texts.antt`, and what of a file in `specs/Files.antt`.
#![tactic(auto)]

mod fault;
mod file_text;
mod files;
mod references;
mod rows;
mod table;

pub use fault::LoadFault;
pub use files::load;
pub use references::place_of;
pub use rows::{RowFault, add_row, load_row};
pub use table::load_rows;
