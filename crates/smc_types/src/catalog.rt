ghost use Rattle.std.specs.Prelude.{◌≡◌, ◌≤◌, ◌-◌, Some, IsTrue, length, slice_get};
ghost use Rattle.std.specs.List.{list_all};
ghost use Rattle.smc_types.specs.Schemas.{files_first};

use crate::Schema;
use std::marker::Model;

/// How many tables there are. Their numbers count from 1.
pub const TABLE_COUNT: u32 = 8;

/// The schemas of all tables, in the order of their numbers. Contracts see a list.
#[derive(Debug, Drop)]
pub struct Schemas {
    items: Vec<Schema>,
}

impl Model for Schemas {
    ghost use Rattle.std.specs.Prelude.{List, ◌≡◌, IsTrue, length};
    ghost use Rattle.std.specs.List.{list_all};
    ghost use Rattle.smc_types.specs.declared.schema.Schema.{Schema};
    ghost use Rattle.smc_types.specs.declared.catalog.TheConstants.{TABLE_COUNT};
    ghost use Rattle.smc_types.specs.Schemas.{files_first};

    ghost Value = { List Schema };

    ghost view = { λ schemas. schemas.items.items };

    ghost invariant = { λ schemas.
        (length schemas.items.items ≡ TABLE_COUNT)
        × IsTrue (list_all files_first schemas.items.items) };
}

impl Schemas {
    /// The schemas from a vector, which takes no memory.
    pub fn of(items: Vec<Schema>) -> Schemas
        requires all { length items.items ≡ TABLE_COUNT }
        requires files { IsTrue (list_all files_first items.items) }
        ensures { result ≡ items.items }
    {
        Schemas { items }
    }

    /// The schemas as a slice.
    pub fn as_slice(&self) -> &[Schema]
        ensures schemas { result.now ≡ self.now }
        ensures all { length self.now ≡ TABLE_COUNT }
        ensures files { IsTrue (list_all files_first self.now) }
    {
        self.items.as_slice()
    }

    /// Gives the vector back, which takes no memory.
    pub fn into_vec(self) -> Vec<Schema>
        ensures schemas { result.items ≡ self }
        ensures all { length self ≡ TABLE_COUNT }
        ensures files { IsTrue (list_all files_first self) }
    {
        self.items
    }
}

/// The tables that there are.
#[derive(Debug, Drop)]
pub struct Catalog {
    pub schemas: Schemas,
}

impl Catalog {
    /// The schema of the table with this number.
    pub fn schema(&self, table: u32) -> &Schema
        requires first { 1 ≤ table }
        requires last { table ≤ TABLE_COUNT }
        ensures schema { slice_get self.now.schemas (table - 1) ≡ Some result.now }
        ensures files { IsTrue (files_first result.now) }
    {
        &self.schemas.as_slice()[(table - 1) as usize]
    }
}
