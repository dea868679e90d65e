//! Conditions of plans, made ready once and then tested on many rows.
//!
//! `constant` finds the expressions that have one value in every row, `word` compares the number or the day in one word of a row
//! with such a value, `test` makes the condition of a plan ready and tests a row by it, and `filter` has what a plan keeps. Below
//! stands `smc_meaning` with the definition of the rows that are kept; above, the crates that run plans over a region.
//!
//! Callers may rely on it that `Filter::keeps` answers what the definition says of a row, and takes no memory. What a test asks
//! of a row is defined in `specs/Tests.antt`.
#![tactic(auto)]

mod constant;
mod filter;
mod test;
mod word;

pub use filter::Filter;
pub use test::{Test, passes, test_of};
pub use word::Word;
