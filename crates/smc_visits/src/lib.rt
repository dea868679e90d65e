//! The row of a visited object: what a query reads of it, and of the objects that its paths lead to.
//!
//! `row` follows the paths of a plan from an object that a section holds, and reads the words behind them; `rows` does so for
//! each object that a scan comes to, in a section of its own, and hands each whole row on; `edits` removes or writes the object
//! behind its row. `laws` says what is read in a world that stands still. Below stand the calls on objects and the leaves of a
//! plan; above, the crates that run queries.
//!
//! Callers may rely on it that every leaf is read anew, by the calls that the definitions name and no others: each reference is
//! one read, and one look-up where it is not null. To read takes no memory. What is read, and when a row is dropped, is defined
//! in `specs/Rows.antt`; what a scan reads in `specs/Visits.antt`, what it edits in `specs/Edits.antt`, and the row of an object
//! in a world in `specs/Still.antt`.
#![tactic(auto)]

mod edits;
pub mod laws;
mod row;
mod rows;

pub use edits::{DecideEdit, Edit, Edits, edit_rows};
pub use row::read_row;
pub use rows::{TakeRow, scan_rows};
