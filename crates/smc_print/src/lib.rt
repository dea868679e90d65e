//! Queries printed as text.
//!
//! `query` has the one call, `print`; `lists`, `cond` and `expr` print the parts of a query, `token` and `number` single
//! tokens. `laws` says what that is worth: what is printed of a query that a text spells is a text of this query again.
//! Below stand `smc_tokens` and `smc_query`, for tokens and trees, `smc_words`, for want of memory, and the kit's `itoa`.
//!
//! Which tokens a query is printed with is defined in `specs/Printed.antt`, how they are written in
//! `specs/TokenText.antt`, how deep they nest in `specs/Depth.antt`, and the laws in `specs/Laws.antt`.
#![tactic(auto)]

mod cond;
mod expr;
pub mod laws;
mod lists;
mod number;
mod query;
mod token;

pub use query::print;
