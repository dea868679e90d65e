//! The commands of scripts outside groups, each by one pass.
//!
//! `outside` has `one`, which runs a command outside a group; `objects` has those on one object, by its name, over `columns`
//! and `tables`, `queries` the queries, and `edits` deletes and updates; `books` has the names and keys that are known between
//! commands, and `reply` the reply's text; `loads` loads the rows of a file, and `folds` tells the names of the boxes of a
//! bench. `known` tells which commands are run, and finds the first part that is not.
//!
//! What a command does and replies is defined in smc_replies. Below stand the calls on objects; above, smc_runner, which runs
//! whole scripts. Callers may rely on it that a pass goes on by exactly the calls of its commands, and that each reply is that
//! of these calls.
#![tactic(auto)]

mod books;
mod columns;
mod edits;
mod folds;
mod known;
mod loads;
mod objects;
mod outside;
mod queries;
mod reply;
mod tables;

pub use books::{Books, Names};
pub use folds::fold_names;
pub use known::{is_known, unknown_line};
pub use loads::load_table;
pub use outside::one;
pub use reply::{Reply, dropped_line};
