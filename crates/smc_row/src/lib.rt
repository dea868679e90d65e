//! The words of a region as 64-bit numbers: how each is packed and read, and the row of a region without objects.
//!
//! `word` packs a word of the machine and reads one back, `open` makes the first row, and `copies` its equal parts.
//! Below it stand the words, the shape and the definitions of the machine; above it what keeps a row and steps on it.
//! Callers rely on it that the numbers are those of the machine's definitions. `specs/Words.antt` says which words have
//! a number, `specs/Rows.antt` what the first row has.
#![tactic(auto)]

mod copies;
mod open;
mod word;

pub use copies::push_copies;
pub use open::opened_row;
pub use word::{packed, unpacked};
