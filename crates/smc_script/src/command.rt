use crate::FoldName;
use crate::name::{FileName, ScriptName};
use crate::script::Place;
use smc_query::{Cond, Expr, Query};
use smc_tokens::Name;
use smc_types::{Row, Value};

/// A command of a script. Each names its table by the place of the table's room.
#[derive(Debug, Drop)]
pub enum Command {
    Load {
        place: Place,
        file: FileName,
    },
    Add {
        place: Place,
        name: ScriptName,
        row: Row,
    },
    Get {
        place: Place,
        name: ScriptName,
    },
    Set {
        place: Place,
        name: ScriptName,
        column: Name,
        value: Value,
    },
    Remove {
        place: Place,
        name: ScriptName,
    },
    Delete {
        place: Place,
        filter: Cond,
    },
    Update {
        place: Place,
        column: Name,
        value: Expr,
        filter: Option<Cond>,
    },
    Query {
        place: Place,
        query: Query,
    },
    Compact {
        place: Place,
    },
    Stat {
        place: Place,
    },
    DropFold {
        name: FoldName,
    },
}
