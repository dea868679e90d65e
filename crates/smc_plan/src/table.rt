//! The tables of a catalog, and the fields of their records.
ghost use Rattle.std.specs.Prelude.{◌≡◌, ◌<◌, ◌≤◌, length, position, IfSome, MatchOption, Some, None};
ghost use Rattle.std.specs.Str.{bytes_eq};
ghost use Rattle.smc_types.specs.Columns.{columns_width};
ghost use Rattle.smc_plan.specs.Tables.{table_named, schema_of, field_among, field_named};

use crate::PlanFault;
use smc_types::{Catalog, Column, FieldType, Schema, WIDTH_MAX};

/// The column of type `kind` that begins at place `at` of a record of `table`, which has `width` words.
#[derive(Clone, Copy, Debug)]
pub struct Field {
    pub table: u32,
    pub width: u32,
    pub at: u32,
    pub kind: FieldType,
}

// The place of the table with this name among the schemas.
fn schema_place(schemas: &[Schema], name: &str) -> Option<usize>
    ensures place { result ≡ position (λ schema. bytes_eq schema.name name.now) schemas.now }
    ensures within { IfSome result (λ place. place < length schemas.now) }
{
    schemas
        .iter()
        .position(|schema| schema.name.as_str() == name)
}

/// The number of the table with this name.
pub fn table_named(catalog: &Catalog, name: &str) -> Option<u32>
    ensures { result ≡ table_named catalog.now name.now }
{
    match schema_place(catalog.schemas.as_slice(), name) {
        Some(place) => Some(place as u32 + 1),
        None => None,
    }
}

// The schema of the table with this number, where there is one.
fn schema_of(catalog: &Catalog, table: u32) -> Option<&Schema>
    ensures { MatchOption result (schema_of catalog.now table ≡ None)
        (λ schema. schema_of catalog.now table ≡ Some schema.now) }
{
    if table == 0 {
        return None;
    }
    catalog.schemas.as_slice().get((table - 1) as usize)
}

// The place of the column with this name.
fn column_place(columns: &[Column], name: &str) -> Option<usize>
    ensures place { result ≡ position (λ column. bytes_eq column.name name.now) columns.now }
    ensures within { IfSome result (λ place. place < length columns.now) }
{
    columns
        .iter()
        .position(|column| column.name.as_str() == name)
}

// How many words these columns take.
fn columns_width(columns: &[Column]) -> u32
    requires { columns_width columns.now ≤ WIDTH_MAX }
    ensures { result ≡ columns_width columns.now }
{
    let mut words = 0;
    for column in columns {
        words += column.kind.width();
    }
    words
}

// The field of that name among the columns of a table.
fn field_among(table: u32, columns: &[Column], name: &str) -> Option<Field>
    requires { columns_width columns.now ≤ WIDTH_MAX }
    ensures { result ≡ field_among table columns.now name.now }
{
    let place = column_place(columns, name)?;
    let (before, _) = columns.split_at(place);
    Some(Field {
        table,
        width: columns_width(columns),
        at: columns_width(before),
        kind: columns[place].kind,
    })
}

/// The field of that name of the table with this number.
pub fn field_named(catalog: &Catalog, table: u32, name: &str) -> Result<Field, PlanFault>
    ensures { result ≡ field_named catalog.now table name.now }
{
    let Some(schema) = schema_of(catalog, table) else {
        return Err(PlanFault::NoField);
    };
    match field_among(table, schema.columns.as_slice(), name) {
        Some(field) => Ok(field),
        None => Err(PlanFault::NoField),
    }
}
