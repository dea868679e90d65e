//! The tables that commands name by their numbers.
ghost use Rattle.std.specs.Prelude.{◌≡◌, IfSome, IsTrue, option_copied};
ghost use Rattle.smc_types.specs.Schemas.{files_first};
ghost use Rattle.smc_types.specs.Tables.{the_tables};
ghost use Rattle.smc_script.specs.Tables as tables;
ghost use Rattle.smc_replies.specs.Commands.{table_name};

use smc_types::{Catalog, Schema};

/// The schema of the table with this number, where there is one.
pub(crate) fn schema_of(catalog: &Catalog, table: u32) -> Option<&Schema>
    ensures schema { option_copied result ≡ tables.schema_of catalog.now table }
    ensures files { IfSome result (λ schema. IsTrue (files_first schema.now)) }
{
    let count = catalog.schemas.as_slice().len();
    if table == 0 || count < table as usize {
        return None;
    }
    Some(catalog.schema(table))
}

/// The name of the table with this number; where there is none, no name.
pub(crate) fn table_name(catalog: &Catalog, table: u32) -> &str
    requires tables { catalog.now ≡ the_tables }
    ensures { result.now ≡ table_name table }
{
    match schema_of(catalog, table) {
        Some(schema) => schema.name.as_str(),
        None => "",
    }
}
