//! Columns: the eight tables, the rows of each, and how a row stands in words.
//!
//! `column`, `schema` and `catalog` say what a table is, and `tables` writes the eight down. `row`, `text` and `number`
//! have what stands in a column, `encoding` and `decoding` turn a row into words and back, `cells` reads one column from
//! its words without memory, `days` reads and prints days of the civil calendar, `keys` finds the number of an object by
//! its key, and `laws` has the theorems on days. Below stand `smc_words` and the kit's `jiff`; above, the crates that read
//! tables, plan queries and run scripts.
//!
//! Callers may rely on it that `tpch` is the tables of `specs/Tables.antt`, that `decode` gives back what `encode` took,
//! and that no word is the blank one. The words of a row are defined in `specs/Records.antt`, its faults in `Faults.antt`,
//! the row of words in `Rows.antt`, texts in `Texts.antt`, the calendar in `Calendar.antt`, and the text of a day in
//! `Days.antt`.
#![tactic(auto)]

mod catalog;
mod cells;
mod column;
mod days;
mod decoding;
mod encoding;
mod keys;
pub mod laws;
mod name;
mod number;
mod row;
mod schema;
mod tables;
#[cfg(test)]
mod tests;
mod text;

pub use catalog::{Catalog, Schemas, TABLE_COUNT};
pub use cells::{day_in, number_in, text_byte, text_len};
pub use column::{Column, Columns, FieldType, WIDTH_MAX, WORD_BYTES};
pub use days::{day_of_date, day_text, read_day};
pub use decoding::decode;
pub use encoding::{EncodeFault, encode};
pub use keys::Keys;
pub use name::Name;
pub use number::{AMOUNT_MAX, COUNT_MAX, DAY_MAX, DAY_MIN, OFFSET, RATE_MAX, moved};
pub use row::{Row, Value};
pub use schema::Schema;
pub use tables::{CUSTOMER, LINEITEM, NATION, ORDERS, PART, PARTSUPP, REGION, SUPPLIER, tpch};
pub use text::{RowText, is_text, push_text};
