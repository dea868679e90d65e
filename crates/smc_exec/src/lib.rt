//! Plans that are run over a region: deletes, updates and queries.
//!
//! `delete` removes the objects whose rows a plan keeps, and `update` writes a field of those whose rows meet the condition of
//! an edit. `answering` gives the text of a plan's answer over the rows of a collection, whose folds are the boxes of a bench:
//! where a plan has no groups and folds, `pushing` puts the rows into a kernel as they are read, and else `query` gathers those
//! that the plan keeps.
//! `buffer` has the words of one row, and `laws` says what holds of each plan that the planner made. Below stand smc_plan with
//! plans, smc_folds with boxes, smc_meaning, which says what a plan keeps of rows, answers over them and writes by an edit,
//! smc_kernel, which answers fast, and smc_visits, which reads the rows of a collection and edits their objects; above, the crates
//! that run scripts.
//!
//! Callers may rely on it that each call scans its collection once, in a section of its own, and that the pass makes no calls
//! but those that the definitions name. What is asked of a plan is defined in `specs/Plans.antt`, what a delete does in
//! `specs/Deletes.antt`, what an update does in `specs/Updates.antt`, what is read for a query, and answered, in
//! `specs/Queries.antt`, what rows were taken while they go into a kernel in `specs/Pushed.antt`, and while they are gathered in
//! `specs/Gathered.antt`.
#![tactic(auto)]

mod answering;
mod buffer;
mod delete;
pub mod laws;
mod pushing;
mod query;
mod update;

pub use answering::answer;
pub use delete::delete_rows;
pub use update::{Updated, update_rows};
