//! The tables and columns that the words of a script name.
ghost use Rattle.std.specs.Prelude.{◌≡◌, ◌<◌, length, position, IfSome};
ghost use Rattle.std.specs.Option.{option_copied};
ghost use Rattle.std.specs.Str.{bytes_eq};
ghost use Rattle.smc_script.specs.Tables as spec;
ghost use Rattle.smc_script.specs.Tables.{column_kind, kind_at, kind_of, schema_of, table_named, table_width};

use smc_types::{Catalog, Column, FieldType, Schema};

// The place of the table with this name among the schemas.
fn schema_at(schemas: &[Schema], word: &str) -> Option<usize>
    ensures place { result ≡ position (λ schema. bytes_eq schema.name word.now) schemas.now }
    ensures within { IfSome result (λ place. place < length schemas.now) }
{
    schemas
        .iter()
        .position(|schema| schema.name.as_str() == word)
}

/// The number of the table with this name.
pub fn table_named(catalog: &Catalog, word: &str) -> Option<u32>
    ensures { result ≡ table_named catalog.now word.now }
{
    match schema_at(catalog.schemas.as_slice(), word) {
        Some(place) => Some(place as u32 + 1),
        None => None,
    }
}

/// The schema of the table with this number, where there is one.
pub fn schema_of(catalog: &Catalog, table: u32) -> Option<&Schema>
    ensures { option_copied result ≡ schema_of catalog.now table }
{
    if table == 0 {
        return None;
    }
    catalog.schemas.as_slice().get((table - 1) as usize)
}

/// The words of a record of the table with this number; where there is none, no words.
pub fn table_width(catalog: &Catalog, table: u32) -> u32
    ensures { result ≡ table_width catalog.now table }
{
    match schema_of(catalog, table) {
        Some(schema) => schema.width(),
        None => 0,
    }
}

fn is_column(word: &str, column: &Column) -> bool
    ensures { result ≡ spec.is_column word.now column.now }
{
    !column.kind.is_reference() & (column.name.as_str() == word)
}

/// Where the column of this name stands among the columns. References are no columns of a row.
pub fn column_at(columns: &[Column], word: &str) -> Option<usize>
    ensures place { result ≡ spec.column_at columns.now word.now }
    ensures within { IfSome result (λ place. place < length columns.now) }
{
    columns.iter().position(|column| is_column(word, column))
}

// The type of the column of this name.
fn kind_in(columns: &[Column], word: &str) -> Option<FieldType>
    ensures { result ≡ kind_at columns.now (spec.column_at columns.now word.now) }
{
    match column_at(columns, word) {
        Some(place) => Some(columns[place].kind),
        None => None,
    }
}

// The type of the column of this name in the rows of the table with this number.
fn column_kind(catalog: &Catalog, table: u32, word: &str) -> Option<FieldType>
    ensures { result ≡ column_kind catalog.now table word.now }
{
    match schema_of(catalog, table) {
        Some(schema) => kind_in(schema.columns.as_slice(), word),
        None => None,
    }
}

/// The type of the column of this name in the rows of a table; none where there is no table or no such column. References
/// are no columns of a row.
pub fn kind_of(catalog: &Catalog, table: Option<u32>, word: &str) -> Option<FieldType>
    ensures { result ≡ kind_of catalog.now table word.now }
{
    match table {
        Some(table) => column_kind(catalog, table, word),
        None => None,
    }
}

/// Whether the column may be written: it is there, and holds a number or a day.
pub fn may_write(kind: Option<FieldType>) -> bool
    ensures { result ≡ spec.may_write kind }
{
    match kind {
        Some(FieldType::Text(_)) | Some(FieldType::RefTo(_)) | None => false,
        Some(_) => true,
    }
}
