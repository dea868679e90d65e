//! What each command of a script without groups comes to, on a plain map of objects.
//!
//! `specs/Plain.antt` has one short function for each command, on a world, the names, the keys and the folds that are known.
//! `Objects.antt` has what is read and written of one object, `Rows.antt` what queries and edits make of a world, and
//! `Tables.antt` what is read of a file. What the region alone decides stands in `Given.antt`: the numbers of objects, and how
//! packings end. `laws` has what follows for calls that were made, one command at a time: a command replies what it comes to on
//! the plain map, and leaves the world of that. So far this is proved of `stat`, `query`, `set`, `remove` and `drop fold`.
//! Below stand the commands as lists of calls, and the worlds; nothing stands above so far. No code that runs is here.
#![tactic(auto)]

pub mod laws;
