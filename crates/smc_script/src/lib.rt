//! Scripts: from the bytes of a script to its typed commands, or to the first line that is refused, with the kind of refusal.
//!
//! `read` has the call, `state` keeps what was read, `reader` takes one more line, `known` gives its kind by the rooms, names
//! and folds before it, over `rooms` and `folds`, `group` what a line does to the group that is open, and `said` reads what a line says, by the word that it begins with (`verb`): `row` the rows and values in it,
//! `query` its texts of the grammar of queries, over what `cut` cuts off.
//! `table` finds the tables and columns that it names, `names` the objects. `script` has a script and its parts, `command`
//! the commands, `name` the names in them, `fault` says why a script is refused, `limits` how much it may ask for, and
//! `laws` that each text is exactly one of a script and a first refused line. Below stand `smc_lines`, which reads the
//! lines, `smc_lang` for the text of queries, `smc_tbl` for rows and fields, `smc_types` with the tables that there are, and
//! `smc_shape`, which knows the regions; above, the crates that run commands.
//!
//! What a line says is defined in `specs/Says.antt`, over the names of `Names.antt` and the tables of `Tables.antt`; what
//! stands before a line in `States.antt`, the kind of refusal of a line in `Faults.antt`, what a whole text gives in
//! `Scripts.antt`, over the trees of `Trees.antt`, and what holds of every script that was read in `Sound.antt`.
#![tactic(auto)]

mod command;
mod cut;
mod fault;
mod folds;
mod group;
mod known;
pub mod laws;
mod limits;
mod name;
mod names;
mod query;
mod read;
mod reader;
mod rooms;
mod row;
mod said;
mod script;
mod state;
mod table;
mod verb;

pub use command::Command;
pub use fault::{ScriptFault, ScriptKind};
pub use name::{FileName, FoldName, FoldNames, ScriptName};
pub use read::read_script;
pub use script::{
    Commands, Numbered, Part, Parts, Place, Room, Rooms, Script, WorkerPart, Workers,
};
pub use table::{column_at, table_width};
