//! Lines of text, for schedules and scripts alike: read once under two limits, then handed out one by one.
//!
//! `read` takes a whole input into a `Lines`, `cursor` hands out its numbered lines, `words` and `number` are for the
//! grammars above, and `fault` says why there are no lines, or no next one. It stands on `smc_outside`. The crates above
//! may rely on this: a text is refused exactly at its first line past a limit, and a line exactly where it is no text.
//! What a line is, and what an answer says of the text, is defined in `specs/Lines.antt`, `Reading.antt`, `Ahead.antt`,
//! `Words.antt` and `Numbers.antt`.
#![tactic(auto)]

mod cursor;
mod fault;
mod limits;
mod lines;
mod number;
mod read;
mod words;

pub use cursor::{Cursor, Numbered};
pub use fault::{BadLine, LinesFault};
pub use limits::{COMMENT, MAX_LINE, MAX_LINES, NEWLINE, SPACE, ZERO_DIGIT};
pub use lines::Lines;
pub use number::read_number;
pub use read::read_lines;
pub use words::{Words, split_word};
