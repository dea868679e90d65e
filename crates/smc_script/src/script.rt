ghost use Rattle.std.specs.Prelude.{◌≡◌};

use crate::command::Command;
use crate::name::FoldNames;
use std::marker::Model;

/// A table with room in the region.
#[derive(Clone, Copy, Debug, PartialEq, Eq, Drop)]
pub struct Place {
    /// The number of the table, from 1.
    pub table: u32,
    /// Its collection in the region, from 0: how many tables of a smaller number have a room.
    pub coll: u8,
}

/// The room of a table.
#[derive(Clone, Copy, Debug, PartialEq, Eq, Drop)]
pub struct Room {
    pub place: Place,
    /// The slots for objects, in whole blocks.
    pub slots: u32,
}

/// The rooms of a script, in the order of their tables' numbers. Contracts see a list.
#[derive(Debug, Drop)]
pub struct Rooms {
    rooms: Vec<Room>,
}

impl Model for Rooms {
    ghost use Rattle.std.specs.Prelude.{List};
    ghost use Rattle.smc_script.specs.declared.script.Room.{Room};

    ghost Value = { List Room };

    ghost view = { λ list. list.rooms.items };
}

impl Rooms {
    /// From a vector, which takes no memory.
    pub fn of(rooms: Vec<Room>) -> Rooms
        ensures { result ≡ rooms.items }
    {
        Rooms { rooms }
    }

    /// All of them, in order.
    pub fn as_slice(&self) -> &[Room]
        ensures { result.now ≡ self.now }
    {
        self.rooms.as_slice()
    }
}

/// A command with the number of its line, from 1.
#[derive(Debug, Drop)]
pub struct Numbered {
    pub line: u64,
    pub command: Command,
}

/// Commands in the order of the script. Contracts see a list.
#[derive(Debug, Drop)]
pub struct Commands {
    commands: Vec<Numbered>,
}

impl Model for Commands {
    ghost use Rattle.std.specs.Prelude.{List};
    ghost use Rattle.smc_script.specs.declared.script.Numbered.{Numbered};

    ghost Value = { List Numbered };

    ghost use Rattle.smc_query.specs.contracts.cond.Cond as conditions;
    ghost use Rattle.smc_query.specs.contracts.expr.Expr as expressions;
    ghost use Rattle.std.specs.Coded.{codes};

    ghost coded = { Prim.hlevel (codes, conditions.the_row.coded, expressions.the_row.coded) };

    ghost view = { λ list. list.commands.items };
}

impl Commands {
    /// From a vector, which takes no memory.
    pub fn of(commands: Vec<Numbered>) -> Commands
        ensures { result ≡ commands.items }
    {
        Commands { commands }
    }

    /// All of them, in order.
    pub fn as_slice(&self) -> &[Numbered]
        ensures { result.now ≡ self.now }
    {
        self.commands.as_slice()
    }
}

/// What one worker of a group does.
#[derive(Debug, Drop)]
pub struct WorkerPart {
    pub commands: Commands,
}

/// The workers of a group, in order. Contracts see a list.
#[derive(Debug, Drop)]
pub struct Workers {
    workers: Vec<WorkerPart>,
}

impl Model for Workers {
    ghost use Rattle.std.specs.Prelude.{List};
    ghost use Rattle.smc_script.specs.declared.script.WorkerPart.{WorkerPart};

    ghost Value = { List WorkerPart };

    ghost use Rattle.smc_query.specs.contracts.cond.Cond as conditions;
    ghost use Rattle.smc_query.specs.contracts.expr.Expr as expressions;
    ghost use Rattle.std.specs.Coded.{codes};

    ghost coded = { Prim.hlevel (codes, conditions.the_row.coded, expressions.the_row.coded) };

    ghost view = { λ list. list.workers.items };
}

impl Workers {
    /// From a vector, which takes no memory.
    pub fn of(workers: Vec<WorkerPart>) -> Workers
        ensures { result ≡ workers.items }
    {
        Workers { workers }
    }

    /// All of them, in order.
    pub fn as_slice(&self) -> &[WorkerPart]
        ensures { result.now ≡ self.now }
    {
        self.workers.as_slice()
    }
}

/// A part of a script: one command, or workers that run at the same time.
#[derive(Debug, Drop)]
pub enum Part {
    One(Numbered),
    Group { workers: Workers },
}

/// The parts of a script, in order. Contracts see a list.
#[derive(Debug, Drop)]
pub struct Parts {
    parts: Vec<Part>,
}

impl Model for Parts {
    ghost use Rattle.std.specs.Prelude.{List};
    ghost use Rattle.smc_script.specs.declared.script.Part.{Part};

    ghost Value = { List Part };

    ghost use Rattle.smc_query.specs.contracts.cond.Cond as conditions;
    ghost use Rattle.smc_query.specs.contracts.expr.Expr as expressions;
    ghost use Rattle.std.specs.Coded.{codes};

    ghost coded = { Prim.hlevel (codes, conditions.the_row.coded, expressions.the_row.coded) };

    ghost view = { λ list. list.parts.items };
}

impl Parts {
    /// From a vector, which takes no memory.
    pub fn of(parts: Vec<Part>) -> Parts
        ensures { result ≡ parts.items }
    {
        Parts { parts }
    }

    /// All of them, in order.
    pub fn as_slice(&self) -> &[Part]
        ensures { result.now ≡ self.now }
    {
        self.parts.as_slice()
    }
}

/// A script: its rooms, the names of the folds with which it was read, and what is to be done.
#[derive(Debug, Drop)]
pub struct Script {
    pub rooms: Rooms,
    pub folds: FoldNames,
    pub parts: Parts,
}
