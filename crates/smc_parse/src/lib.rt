//! The tree of a query, a condition or an edit, from the tokens of its text.
//!
//! `read` has the three calls, `query` and `parts` the parts of a query in their order, `item` and `key` the lists in it,
//! `call`, `cond` and `expr` what nests, `path` the names; `cursor` looks at the token of a place, `nodes` puts trees
//! together, `fault` says why tokens are no text, `limits` how deep they may nest. Below stands `smc_query` with the
//! grammar; above it the language, which has bytes for tokens. One token of look-ahead decides, and nothing is read twice.
//! Callers may rely on this: the tree is the one that all tokens spell, or the fault stands at the first token of which no
//! text goes on, or which opens too much. That is defined in `specs/Places.antt` by the grammar, and proved by what
//! `specs/Machine.antt` of `smc_query` makes of the tokens: `specs/Reading.antt` says it of a part, `specs/Texts.antt` of all.
//! `laws` shows of most parts that this leaves the call that reads them one answer (`specs/Once.antt`).
#![tactic(auto)]

mod call;
mod cond;
mod cursor;
mod expr;
mod fault;
mod item;
mod key;
pub mod laws;
mod limits;
mod nodes;
mod parts;
mod path;
mod query;
mod read;
#[cfg(test)]
mod tests;

pub use fault::Fault;
pub use limits::MAX_OPEN;
pub use read::{read_cond, read_edit, read_query};
