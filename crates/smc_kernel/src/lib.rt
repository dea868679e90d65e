//! Queries over batches of rows.
//!
//! `batch` keeps up to 64 rows column by column, `filter` finds the places of the rows that a plan keeps, and `chosen` has such
//! places. `column` gives the values of an expression at places, column by column, where all that is reckoned fits 64 bits, and
//! `units` has such numbers. `total` is what an output column knows of the rows so far, and `kernel` takes batches and gives the
//! answer, of which `showing` makes the columns; `plain` says which plans have no fold. Below stands `smc_meaning` with the definition of the answer; above, the crates
//! that scan.
//!
//! Callers may rely on it that `Kernel::finish` gives the answer over all rows that were pushed, in the order of the pushes, for
//! a plan without groups and folds. What a kernel knows is defined in `specs/Taken.antt`, what a batch is in
//! `Batches.antt`, and what a column of values is in `Columns.antt`.
#![tactic(auto)]

mod batch;
mod chosen;
mod column;
mod filter;
mod kernel;
mod plain;
mod showing;
mod total;
mod units;

pub use batch::{Batch, ROOM};
pub use kernel::Kernel;
pub use plain::is_plain;
