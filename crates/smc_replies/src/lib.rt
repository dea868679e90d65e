//! What each command of a script does, and what it replies.
//!
//! `specs/Commands.antt` says of each command what it needs, what it does and what it replies: the calls of its pass, in
//! order, and the text that follows from them. `Objects.antt` has the commands on one object, by the names and keys of
//! `Books.antt`, which are known between commands; `Loads.antt` a load, over the files of its scene; `Queries.antt` a query,
//! `Edits.antt` deletes and updates, and `Folds.antt` folds that are dropped. It also says which commands are run.
//! `specs/Scripts.antt` puts the parts of a script one behind another, and `laws` has what follows of all of them: a command's
//! calls are read off from the front of a trace, and one trace has one text. `limits` says how much a command may ask for.
//! `specs/Workers.antt` and `Groups.antt` say what the workers of a group do, each by its own pass, and what a group replies; `laws`
//! says that it is one text. The programs above refuse groups so far.
//! Below stand the calls on objects, the rounds, the loading of rows and the types of scripts; above, the programs that run
//! scripts. No code that runs is here.
#![tactic(auto)]

mod added;
pub mod laws;
mod limits;

pub use added::Added;
pub use limits::COMPACT_TURNS;
