//! Query text: a query, a condition or an edit, parsed by the grammar, with the exact place of a fault.
//!
//! `text` has the three calls, `fault` says why a text is refused, `limits` how long it may be. `place` turns what was
//! read of the tokens into what was read of the text, and `laws` says that every text is one thing only in each form,
//! and that a query is read again from its printed text. Below stand `smc_tokens`, which reads the tokens of a text,
//! `smc_query` with the grammar over tokens, `smc_parse`, which reads it, and `smc_print`, which writes a query and is
//! handed on from here; above it the planner and the scripts, which need no other crate for query text.
//!
//! Callers may rely on this: a text of at most 1,024 bytes is parsed exactly where the grammar reads it, as the one tree
//! that it spells; else it is refused at the first byte of what can't stand there. What a text is read as, and the place
//! where it stops, is defined in `specs/Texts.antt`; `specs/Places.antt` has the bytes of the places of tokens.
#![tactic(auto)]

mod fault;
pub mod laws;
mod limits;
mod place;
mod text;

pub use fault::ParseFault;
pub use limits::MAX_TEXT;
pub use smc_print::print;
pub use smc_query::{
    Cond, Expr, Item, ItemCall, Items, Names, Op, Path, Paths, Query, SortKey, SortKeys,
};
pub use smc_tokens::{Name, Quoted};
pub use text::{parse, parse_cond, parse_edit};
