//! How one more line changes what was read of a script.
ghost use Rattle.std.specs.Prelude.{◌≡◌, ◌≤◌, ℕ, length, None, Some, Ok, IfOk, OnOk};
ghost use Rattle.smc_lines.specs.Ahead.{Counts};
ghost use Rattle.smc_query.specs.Trees.{query_tree};
ghost use Rattle.smc_shape.specs.declared.shape.TheConstants.{MAX_COLLS};
ghost use Rattle.smc_script.specs.Faults as fault;
ghost use Rattle.smc_script.specs.Faults.{LineGives, line_answer, said_fault, taken};
ghost use Rattle.smc_script.specs.Says as says;
ghost use Rattle.smc_script.specs.Says.{said_tree};
ghost use Rattle.smc_script.specs.States as state;
ghost use Rattle.smc_script.specs.States.{after, place_named, place_of, reading, script_of, start, with_command, with_room};
ghost use Rattle.smc_script.specs.Tables.{table_named};
ghost use Rattle.smc_script.specs.Trees.{script_tree};
ghost use Rattle.smc_script.specs.Trees as trees;
ghost use Rattle.smc_query.specs.Trees.{cond_tree, expr_tree, filter_tree};

use crate::command::Command;
use crate::fault::ScriptKind;
use crate::name::{FileName, FoldName, FoldNames, ScriptName};
use crate::names::Names;
use crate::rooms::{place_of, placed_rooms, with_room};
use crate::said::{Said, read_said};
use crate::script::{Parts, Place, Rooms, Script};
use crate::state::{Asked, Grouping, Phase, Reader};
use crate::table::table_named;
use smc_lang::{Cond, Expr, Query};
use smc_tokens::Name;
use smc_types::{Catalog, Row, Value};
use smc_words::NoMemory;
use std::alloc::Global;

impl Reader {
    ghost use Rattle.std.specs.Prelude.{◌≡◌, ◌≤◌, None, Some, Ok, IfOk, OnOk, length};

    /// Before the first line.
    pub fn new(alloc: Global) -> Reader
        ensures { reading result ≡ start }
    {
        Reader {
            phase: Phase::Asking,
            rooms: Vec::new(alloc),
            names: Names::new(alloc),
            dropped: Vec::new(alloc),
            parts: Vec::new(alloc),
            group: Grouping::Outside,
        }
    }

    // Takes a room, of which the rooms stay few.
    fn take_room(&mut self, alloc: Global, table: u32, slots: Option<u32>) -> Result<(), NoMemory>
        requires { (n : ℕ) → slots ≡ Some n → length (with_room (record { table = table; slots = n }) self.old.rooms.items) ≤ MAX_COLLS }
        ensures { OnOk result ((catalog : _) (line : ℕ) → reading self.new ≡ after catalog (reading self.old) line (says.room table slots)) }
    {
        if let Some(slots) = slots {
            self.rooms = with_room(alloc, &self.rooms, Asked { table, slots })?;
        }
        Ok(())
    }

    fn place(&self, table: u32) -> Place
        ensures { result ≡ place_of self.now.rooms.items table }
    {
        place_of(&self.rooms, table)
    }

    // The place of the table of a query.
    fn query_place(&self, catalog: &Catalog, query: &Query) -> Place
        ensures { result ≡ place_of self.now.rooms.items (state.query_table catalog.now (query_tree query.now)) }
    {
        match table_named(catalog, query.table.as_str()) {
            Some(table) => self.place(table),
            None => self.place(0),
        }
    }

    // The place of the object with this name.
    fn place_named(&self, name: &ScriptName) -> Place
        ensures { result ≡ place_named (reading self.now) name.now }
    {
        match self.names.table(name.as_str()) {
            Some(table) => self.place(table),
            None => self.place(0),
        }
    }

    // Takes a row to be added, whose name is given from here on.
    fn take_add(
        &mut self,
        alloc: Global,
        line: u64,
        table: u32,
        name: ScriptName,
        row: Row,
    ) -> Result<(), NoMemory>
        ensures { OnOk result ((catalog : _) → reading self.new ≡ after catalog (reading self.old) line (says.add table name row)) }
    {
        self.names.give(alloc, name.as_str(), table, line)?;
        let place = self.place(table);
        self.take_command(line, Command::Add { place, name, row })
    }

    // Takes the dropping of a fold, which is known no more from here on.
    fn take_drop(&mut self, alloc: Global, line: u64, name: FoldName) -> Result<(), NoMemory>
        ensures { OnOk result ((catalog : _) → reading self.new ≡ after catalog (reading self.old) line (says.drop_fold name)) }
    {
        self.dropped.push(FoldName::of(alloc, name.as_str())?)?;
        self.take_command(line, Command::DropFold { name })
    }

    // Takes a value to be set, where there is one.
    fn take_set(
        &mut self,
        line: u64,
        name: ScriptName,
        column: Name,
        value: Option<Value>,
    ) -> Result<(), NoMemory>
        ensures { OnOk result ((catalog : _) → reading self.new ≡ after catalog (reading self.old) line (says.set name column value)) }
    {
        let Some(value) = value else {
            return Ok(());
        };
        let place = self.place_named(&name);
        self.take_command(
            line,
            Command::Set {
                place,
                name,
                column,
                value,
            },
        )
    }

    // Takes the loading of a file.
    fn take_load(&mut self, line: u64, table: u32, file: FileName) -> Result<(), NoMemory>
        ensures { OnOk result (reading self.new ≡ with_command (reading self.old) line (Some (trees.load (place_of self.old.rooms.items table) file))) }
    {
        let place = self.place(table);
        self.take_command(line, Command::Load { place, file })
    }

    // Takes the showing of an object.
    fn take_get(&mut self, line: u64, name: ScriptName) -> Result<(), NoMemory>
        ensures { OnOk result (reading self.new ≡ with_command (reading self.old) line (Some (trees.get (place_named (reading self.old) name) name))) }
    {
        let place = self.place_named(&name);
        self.take_command(line, Command::Get { place, name })
    }

    // Takes the removal of an object.
    fn take_remove(&mut self, line: u64, name: ScriptName) -> Result<(), NoMemory>
        ensures { OnOk result (reading self.new ≡ with_command (reading self.old) line (Some (trees.remove (place_named (reading self.old) name) name))) }
    {
        let place = self.place_named(&name);
        self.take_command(line, Command::Remove { place, name })
    }

    // Takes the removal of the rows that meet a condition.
    fn take_delete(&mut self, line: u64, table: u32, filter: Cond) -> Result<(), NoMemory>
        ensures { OnOk result (reading self.new ≡ with_command (reading self.old) line (Some (trees.delete (place_of self.old.rooms.items table) (cond_tree filter)))) }
    {
        let place = self.place(table);
        self.take_command(line, Command::Delete { place, filter })
    }

    // Takes an edit of the rows that meet a condition.
    fn take_update(
        &mut self,
        line: u64,
        table: u32,
        column: Name,
        value: Expr,
        filter: Option<Cond>,
    ) -> Result<(), NoMemory>
        ensures { OnOk result (reading self.new ≡ with_command (reading self.old) line (Some (trees.update (place_of self.old.rooms.items table) column (expr_tree value) (filter_tree filter)))) }
    {
        let place = self.place(table);
        self.take_command(
            line,
            Command::Update {
                place,
                column,
                value,
                filter,
            },
        )
    }

    // Takes a query.
    fn take_query(&mut self, catalog: &Catalog, line: u64, query: Query) -> Result<(), NoMemory>
        ensures { OnOk result (reading self.new ≡ with_command (reading self.old) line (Some (trees.query (place_of self.old.rooms.items (state.query_table catalog.now (query_tree query))) (query_tree query)))) }
    {
        let place = self.query_place(catalog, &query);
        self.take_command(line, Command::Query { place, query })
    }

    // Takes the packing of a table.
    fn take_compact(&mut self, line: u64, table: u32) -> Result<(), NoMemory>
        ensures { OnOk result (reading self.new ≡ with_command (reading self.old) line (Some (trees.compact (place_of self.old.rooms.items table)))) }
    {
        let place = self.place(table);
        self.take_command(line, Command::Compact { place })
    }

    // Takes the counting of a table.
    fn take_stat(&mut self, line: u64, table: u32) -> Result<(), NoMemory>
        ensures { OnOk result (reading self.new ≡ with_command (reading self.old) line (Some (trees.stat (place_of self.old.rooms.items table)))) }
    {
        let place = self.place(table);
        self.take_command(line, Command::Stat { place })
    }

    // Takes a line that says this.
    fn take(
        &mut self,
        alloc: Global,
        catalog: &Catalog,
        line: u64,
        said: Said,
    ) -> Result<(), NoMemory>
        requires { fault.room_fault catalog.now (reading self.old) (said_tree said) ≡ None }
        ensures { OnOk result (reading self.new ≡ after catalog.now (reading self.old) line (said_tree said)) }
    {
        match said {
            Said::Room { table, slots } => self.take_room(alloc, table, slots),
            Said::Load { table, file } => self.take_load(line, table, file),
            Said::Add { table, name, row } => self.take_add(alloc, line, table, name, row),
            Said::Get { name } => self.take_get(line, name),
            Said::Set {
                name,
                column,
                value,
            } => self.take_set(line, name, column, value),
            Said::Remove { name } => self.take_remove(line, name),
            Said::Delete { table, filter } => self.take_delete(line, table, filter),
            Said::Update {
                table,
                column,
                value,
                filter,
            } => self.take_update(line, table, column, value, filter),
            Said::Query { query } => self.take_query(catalog, line, query),
            Said::Compact { table } => self.take_compact(line, table),
            Said::Stat { table } => self.take_stat(line, table),
            Said::DropFold { name } => self.take_drop(alloc, line, name),
            Said::Group => {
                self.take_group(line);
                Ok(())
            }
            Said::Worker => self.take_worker(alloc, line),
            Said::End => self.take_end(alloc, line),
        }
    }

    // Takes a line that says this, or answers the kind of its refusal.
    fn said_line(
        &mut self,
        alloc: Global,
        catalog: &Catalog,
        folds: &FoldNames,
        line: u64,
        said: Said,
    ) -> Result<Option<ScriptKind>, NoMemory>
        ensures { IfOk result (λ kind. line_answer kind (reading self.new) ≡ taken catalog.now (reading self.old) line (said_tree said) (said_fault catalog.now folds.now (reading self.old) (said_tree said))) }
    {
        if let Some(kind) = self.fault(alloc, catalog, folds, &said)? {
            return Ok(Some(kind));
        }
        self.take(alloc, catalog, line, said)?;
        Ok(None)
    }

    /// Takes a line that counts, or answers the kind of its refusal.
    pub fn line(
        &mut self,
        alloc: Global,
        catalog: &Catalog,
        folds: &FoldNames,
        line: u64,
        text: &str,
    ) -> Result<Option<ScriptKind>, NoMemory>
        requires { Counts text.now }
        ensures { IfOk result (λ kind. LineGives catalog.now folds.now (reading self.old) line text.now (line_answer kind (reading self.new))) }
    {
        match read_said(alloc, catalog, &self.names, text) {
            Ok(Some(said)) => self.said_line(alloc, catalog, folds, line, said),
            Ok(None) => Ok(Some(ScriptKind::Grammar)),
            Err(fault) => Err(fault),
        }
    }

    /// The script that was read.
    pub fn into_script(self, alloc: Global, folds: FoldNames) -> Result<Script, NoMemory>
        ensures { IfOk result (λ script. script_tree script ≡ script_of folds (reading self)) }
    {
        let rooms = Rooms::of(placed_rooms(alloc, &self.rooms)?);
        let parts = Parts::of(self.parts);
        Ok(Script {
            rooms,
            folds,
            parts,
        })
    }
}
