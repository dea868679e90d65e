//! The text of a table, line by line, from any source; and a row printed as one line.
//!
//! `lines` takes the next line from a source, over `buffer`, which keeps what was read ahead. `grammar` reads a line by
//! the columns of its table, `fields` one field and `numbers` a number of it; `bytes` has what separates them and which
//! bytes are text. `words` and `word_lines` go from a line straight to the words of its record, as `grammar` and `lines` go
//! to its row. `print` writes a row, `fault` says why there is no next one, and `laws` has the theorems. Below stand
//! `smc_outside`, `smc_types` and the kit's `memchr` and `itoa`; above, the crates that load tables and run scripts.
//!
//! Callers may rely on it that a row is read exactly where a line spells it, that a fault is the first of its line, that
//! a row which was read fits the columns of its table, and that words which were read are those of such a row.
//! `specs/Fields.antt` defines what a field spells, `Alone.antt` the same of a field on its own, `TableText.antt` what a
//! line gives, `Words.antt` the same in words, `Reading.antt` and `Reader.antt` what was taken of a text, and `Printed.antt`
//! the one text of a row with its greatest length.
#![tactic(auto)]

mod buffer;
mod bytes;
mod fault;
#[cfg(test)]
mod field_tests;
mod fields;
mod grammar;
pub mod laws;
mod lines;
mod numbers;
mod print;
#[cfg(test)]
mod reader_tests;
#[cfg(test)]
mod tests;
mod word_lines;
mod words;

pub use fault::TblFault;
pub use fields::read_field;
pub use grammar::read_row;
pub use lines::{Lines, next_row};
pub use print::print_row;
pub use word_lines::next_words;
pub use words::read_words;
