//! The text of a schedule: what each line says, what each answer prints, and which names are known.
//!
//! `verb`, `name`, `call` and `line` read a line layer by layer, `header` reads the first one, `answer` prints the
//! answers of the machine, and `names` is the table of the names that were given. It stands on `smc_lines` and on the
//! types of the machine. A crate that plays schedules may rely on this: a line is read exactly where the format has it,
//! and an answer is printed as the format says. Both are defined in `specs/Lines.antt`, `Calls.antt`, `Header.antt` and
//! `Answers.antt`; what is known of a name in `Known.antt`.
#![tactic(auto)]

mod answer;
mod call;
mod header;
pub mod laws;
mod line;
mod name;
mod names;
mod verb;

pub use answer::answer_line;
pub use call::{StartCall, read_call};
pub use header::{Header, read_header};
pub use line::{Act, ScheduleLine, read_line};
pub use name::{MAX_NAME, Name, is_name};
pub use names::{Known, Names};
pub use verb::{Verb, read_verb};
