//! Queries, and the grammar of their text over tokens.
//!
//! `query`, `path`, `cond` and `expr` have a query and its parts, and `laws` says what the grammar is worth: no list of
//! tokens spells two trees, and every one spells a tree or has a first token that is wrong or opens too much, before which
//! it can still become a text. Below stands `smc_tokens`; above it the planner and the scripts. Reading and printing by
//! code are still to come.
//!
//! A query as a tree is defined in `specs/Trees.antt`, the grammar in `specs/Grammar.antt`, the place of a fault in
//! `specs/Faults.antt`, the laws in `specs/Laws.antt`, and short texts in `specs/Examples.antt`. `specs/Machine.antt` says
//! what is still to come behind each token: the laws are proved by it, and readers will be proved against it.
#![tactic(auto)]

mod cond;
mod expr;
pub mod laws;
mod path;
mod query;
#[cfg(test)]
mod tests;

pub use cond::{Cond, Op};
pub use expr::Expr;
pub use path::{Names, Path, Paths};
pub use query::{Item, ItemCall, Items, Query, SortKey, SortKeys};
