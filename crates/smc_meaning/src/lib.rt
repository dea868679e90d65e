//! What a query means: the definition of its answer over rows, and a plain evaluator that gives it.
//!
//! A row is the words of all leaves of a plan, one leaf behind the other; `rows` keeps many of them, and `leaf` finds a leaf in
//! one. `value` gives the value of an expression in a row, `decimal` has its numbers and `text` its texts; `comparing` compares
//! values, `filter` says whether a plan keeps a row, and `group` finds the rows that are kept and those of each group. `summing`
//! has sums and averages, `extremes` the least and the greatest, `folding` the answers of folds, `output` what a column shows of a
//! group, as `shown` has it, and `laws` the theorems over the definitions. Below stand `smc_plan` with plans, `smc_types` with
//! columns and `smc_folds` with the boxes of folds; above, the crates that answer queries fast, whose answers are those of the
//! definitions here.
//!
//! `cell` has the columns of an answer, `answer` its rows and its text, and `order` the order of rows. `answering` is the
//! evaluator, made of all these: `slow` gives the answer of each plan, where the folds are the boxes of a bench.
//! `editing` says what an edit does with a row.
//!
//! The value of an expression is defined in `specs/Values.antt`, how values compare in `Comparing.antt`, the rows that are kept in
//! `Kept.antt`, groups and aggregates in `Groups.antt`, and the answer of a plan in `Answers.antt`; the order of rows stands in
//! `Orders.antt`, the text of an answer in `Printed.antt`, and what an edit does in `Edited.antt`. `Worked.antt` has answers over a
//! few rows.
#![tactic(auto)]

mod answer;
mod answering;
mod cell;
mod comparing;
mod decimal;
mod editing;
mod extremes;
mod filter;
mod folding;
mod group;
pub mod laws;
mod leaf;
mod order;
mod output;
mod rows;
mod shown;
mod summing;
#[cfg(test)]
mod tests;
mod text;
mod value;

pub use answer::{Answer, AnswerRow};
pub use answering::slow;
pub use cell::{Cell, ShownText};
pub use comparing::compare_rows;
pub use decimal::Decimal;
pub use editing::{Edited, edit};
pub use extremes::End;
pub use filter::{kept, meets};
pub use rows::{ROWS_MAX, Rows};
pub use text::TextIn;
pub use value::{Sort, day_at, number_at, sort_at, text_at};
