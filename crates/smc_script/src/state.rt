//! What was read of a script.
ghost use Rattle.std.specs.Prelude.{◌≤◌, length};
ghost use Rattle.smc_shape.specs.declared.shape.TheConstants.{MAX_COLLS};

use crate::name::FoldName;
use crate::names::Names;
use crate::script::{Numbered, Part, WorkerPart};

/// Whether rooms may still be asked for.
#[derive(Clone, Copy, Debug, PartialEq, Eq)]
pub enum Phase {
    /// No command was read.
    Asking,
    /// A command was read.
    Doing,
}

/// A room that was asked for.
#[derive(Clone, Copy, Debug, PartialEq, Eq)]
pub struct Asked {
    pub table: u32,
    pub slots: u32,
}

/// Whether a group is open.
#[derive(Drop)]
pub enum Grouping {
    Outside,
    /// It has no worker.
    Begun,
    /// Workers that are read, and the commands so far of one more.
    Working {
        workers: Vec<WorkerPart>,
        commands: Vec<Numbered>,
    },
}

/// What was read of a script. What it shows is the `ReadState` of `reading`.
#[derive(Drop)]
pub struct Reader {
    pub phase: Phase,
    /// In the order of the tables' numbers.
    pub rooms: Vec<Asked>,
    pub names: Names,
    /// The folds that were dropped.
    pub dropped: Vec<FoldName>,
    pub parts: Vec<Part>,
    pub group: Grouping,
    ghost few: { length rooms.items ≤ MAX_COLLS },
}
