//! The tokens of query text: names, reserved words, dates, numbers, texts and signs; and a text read as its tokens.
//!
//! `token` has a token and where it begins; `name` and `quoted` have the texts in it, `reserved` and `sign` the words and
//! signs, each with how it is written, and `limits` how long a token may be. `list` reads a whole text; below it `read`
//! finds the token that a text begins with, by its first byte, with `date` and `number` for what begins with a digit,
//! and `bytes` and `digits` for their parts. `laws` says that a text falls into one list of tokens, and only one. Below stands
//! `smc_words`, for want of memory; above it the grammar of queries.
//!
//! Callers may rely on it that `read_tokens` gives the longest tokens of a text in their order, each with its place,
//! and stops exactly where the text ends or where no token begins. What bytes are one token, and how a text falls into
//! its tokens, is defined in `specs/Tokens.antt`; what is read of a text in `TokenList.antt`. `Front.antt` has what a
//! text begins with, for the functions in here.
#![tactic(auto)]

mod bytes;
mod date;
mod digits;
mod found;
pub mod laws;
mod limits;
mod list;
mod name;
mod number;
mod quoted;
mod read;
mod reserved;
mod sign;
#[cfg(test)]
mod tests;
mod token;

pub use limits::{MAX_DECIMALS, MAX_DIGITS, MAX_NAME};
pub use list::{Tokens, read_tokens};
pub use name::Name;
pub use quoted::Quoted;
pub use reserved::Reserved;
pub use sign::Sign;
pub use token::{Placed, Token};
