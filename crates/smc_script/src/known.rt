//! The kind of a line by what was read before it.
ghost use Rattle.std.specs.Prelude.{◌≡◌, None, Some, Ok, IfOk, not, ◌&&◌};
ghost use Rattle.smc_query.specs.Trees.{query_tree};
ghost use Rattle.smc_script.specs.Faults as fault;
ghost use Rattle.smc_script.specs.Faults.{fault_where, is_given, is_left, is_placed, is_too_large, knows_folds, said_fault};
ghost use Rattle.smc_script.specs.Says as says;
ghost use Rattle.smc_script.specs.Says.{said_tree};
ghost use Rattle.smc_script.specs.Names.{is_taken};
ghost use Rattle.smc_script.specs.States.{reading, with_room};
ghost use Rattle.smc_script.specs.Says.{kind_named};
ghost use Rattle.smc_script.specs.Tables as spec;
ghost use Rattle.smc_script.specs.Tables.{table_named};

use crate::fault::ScriptKind;
use crate::folds::{is_left, knows_folds};
use crate::name::{FoldNames, ScriptName};
use crate::rooms::{has_room, is_too_large, with_room};
use crate::said::Said;
use crate::state::{Asked, Phase, Reader};
use crate::table::{kind_of, may_write, table_named};
use smc_lang::Query;
use smc_tokens::Name;
use smc_types::Catalog;
use smc_words::NoMemory;
use std::alloc::Global;

// The kind of a line whose names are not all good.
fn name_fault(good: bool) -> Option<ScriptKind>
    ensures { result ≡ fault_where (not good) ScriptKind.Name }
{
    if good {
        return None;
    }
    Some(ScriptKind::Name)
}

impl Reader {
    fn room_fault(
        &self,
        alloc: Global,
        catalog: &Catalog,
        table: u32,
        slots: Option<u32>,
    ) -> Result<Option<ScriptKind>, NoMemory>
        ensures { IfOk result (λ kind. kind ≡ fault.room_fault catalog.now (reading self.now) (says.room table slots)) }
    {
        let refused = Some(ScriptKind::Room);
        if self.phase == Phase::Doing || has_room(&self.rooms, table) {
            return Ok(refused);
        }
        let Some(slots) = slots else {
            return Ok(refused);
        };
        let rooms = with_room(alloc, &self.rooms, Asked { table, slots })?;
        if is_too_large(alloc, catalog, &rooms)? {
            return Ok(refused);
        }
        Ok(None)
    }

    // Whether the name was given to an object of a table with a room.
    fn is_given(&self, name: &ScriptName) -> bool
        ensures { result ≡ is_given (reading self.now) name.now }
    {
        match self.names.table(name.as_str()) {
            Some(table) => has_room(&self.rooms, table),
            None => false,
        }
    }

    // Whether the name is new, and the table of its object has a room.
    fn is_new(&self, table: u32, name: &ScriptName) -> bool
        ensures { result ≡ (fault.has_room self.now.rooms.items table && not (is_taken self.now.names name.now)) }
    {
        has_room(&self.rooms, table) & !self.names.is_taken(name.as_str())
    }

    // Whether the named object was given, and has a column of this name that may be written.
    fn may_set(&self, catalog: &Catalog, name: &ScriptName, column: &Name) -> bool
        ensures { result ≡ (is_given (reading self.now) name.now && spec.may_write (kind_named catalog.now self.now.names name.now column.now)) }
    {
        let kind = kind_of(catalog, self.names.table(name.as_str()), column.as_str());
        self.is_given(name) & may_write(kind)
    }

    // Whether the table has a room, and a column of this name that may be written.
    fn may_update(&self, catalog: &Catalog, table: u32, column: &Name) -> bool
        ensures { result ≡ (fault.has_room self.now.rooms.items table && spec.may_write (spec.column_kind catalog.now table column.now)) }
    {
        let kind = kind_of(catalog, Some(table), column.as_str());
        has_room(&self.rooms, table) & may_write(kind)
    }

    // Whether the query is over a table with a room, and its folds are left.
    fn is_known(&self, catalog: &Catalog, folds: &FoldNames, query: &Query) -> bool
        ensures { result ≡ (is_placed self.now.rooms.items (table_named catalog.now query.now.table) && knows_folds folds.now self.now.dropped.items (query_tree query.now).items) }
    {
        match table_named(catalog, query.table.as_str()) {
            Some(table) => has_room(&self.rooms, table) & knows_folds(folds, &self.dropped, query),
            None => false,
        }
    }

    // The kind of a line by the rooms, names and folds before it.
    fn known_fault(
        &self,
        alloc: Global,
        catalog: &Catalog,
        folds: &FoldNames,
        said: &Said,
    ) -> Result<Option<ScriptKind>, NoMemory>
        ensures { IfOk result (λ kind. kind ≡ fault.known_fault catalog.now folds.now (reading self.now) (said_tree said.now)) }
    {
        match said {
            Said::Room { table, slots } => self.room_fault(alloc, catalog, *table, *slots),
            Said::Load { table, .. } => Ok(name_fault(has_room(&self.rooms, *table))),
            Said::Add { table, name, .. } => Ok(name_fault(self.is_new(*table, name))),
            Said::Get { name } => Ok(name_fault(self.is_given(name))),
            Said::Set { name, column, .. } => {
                Ok(name_fault(self.may_set(catalog, name, column)))
            }
            Said::Remove { name } => Ok(name_fault(self.is_given(name))),
            Said::Delete { table, .. } => Ok(name_fault(has_room(&self.rooms, *table))),
            Said::Update { table, column, .. } => {
                Ok(name_fault(self.may_update(catalog, *table, column)))
            }
            Said::Query { query } => Ok(name_fault(self.is_known(catalog, folds, query))),
            Said::Compact { table } => Ok(name_fault(has_room(&self.rooms, *table))),
            Said::Stat { table } => Ok(name_fault(has_room(&self.rooms, *table))),
            Said::DropFold { name } => {
                Ok(name_fault(is_left(folds, &self.dropped, name.as_str())))
            }
            Said::Group | Said::Worker | Said::End => Ok(None),
        }
    }

    // The kind of a line that says this.
    pub fn fault(
        &self,
        alloc: Global,
        catalog: &Catalog,
        folds: &FoldNames,
        said: &Said,
    ) -> Result<Option<ScriptKind>, NoMemory>
        ensures { IfOk result (λ kind. kind ≡ said_fault catalog.now folds.now (reading self.now) (said_tree said.now)) }
    {
        if let Some(kind) = self.group.fault(said) {
            return Ok(Some(kind));
        }
        self.known_fault(alloc, catalog, folds, said)
    }
}
