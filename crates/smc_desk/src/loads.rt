//! The loading of a file into its table.
ghost use Rattle.std.specs.Prelude.{◌≡◌, ◌≤◌, Err, IfErr, IfOk, List};
ghost use Rattle.smc_outside.specs.Causes.{Rose};
ghost use Rattle.smc_region.specs.Callers.{IsPassOf, IsSame};
ghost use Rattle.smc_does.specs.Does.{DoesSome, OwnsNone};
ghost use Rattle.smc_folds.specs.Kinds.{Kind};
ghost use Rattle.smc_types.specs.Tables.{the_tables};
ghost use Rattle.smc_script.specs.Tables as tables;
ghost use Rattle.smc_replies.specs.Commands.{IsTableOf};
ghost use Rattle.smc_replies.specs.Loads.{LoadsBy};
ghost use Rattle.smc_desk.specs.Scenes.{seen};
ghost use Rattle.smc_desk.specs.Stops.{LoadStops};

use crate::books::Books;
use crate::reply::{Reply, loaded_reply};
use crate::tables::schema_of;
use smc_load::{LoadFault, load};
use smc_outside::Shelf;
use smc_region::{Pass, Region};
use smc_script::{FileName, Place};
use smc_types::Catalog;
use std::alloc::Global;

/// Loads the rows of a file. Answers how many they are.
///
/// # Errors
/// The rows before the fault stay, with their keys.
pub fn load_table<F: Shelf>(
    alloc: Global,
    place: Place,
    file: &FileName,
    catalog: &Catalog,
    books: &mut Books,
    shelf: &mut F,
    pass: Pass,
    region: &Region,
) -> (Pass, Result<Reply, LoadFault>)
    requires here { IsPassOf region.now pass }
    requires tables { catalog.now ≡ the_tables }
    requires table { IsTableOf region.now.about.shape place }
    ensures done { (kinds : List Kind) → IfOk result.1 (λ reply. DoesSome pass result.0 (λ calls.
        LoadsBy (tables.schema_of the_tables place.table) (F.files shelf.old) place file.now (seen books.old kinds) (seen books.new kinds) calls reply)) }
    ensures stops { (kinds : List Kind) → IfErr result.1 (λ fault. LoadStops fault (tables.schema_of the_tables place.table) (F.files shelf.old) place file.now (seen books.old kinds) pass result.0) }
    ensures home { IsSame pass result.0 × (OwnsNone pass → OwnsNone result.0) }
    ensures failed { result.1 ≡ Err LoadFault.ReadFault → Rose (F.faults shelf.old) (F.faults shelf.new) }
    ensures kept { F.files shelf.new ≡ F.files shelf.old }
    ensures later { F.faults shelf.old ≤ F.faults shelf.new }
{
    let Some(schema) = schema_of(catalog, place.table) else {
        unreachable!();
    };
    let (pass, answer) = load(
        alloc,
        shelf,
        file.as_str(),
        schema,
        place.table,
        place.coll,
        &mut books.keys,
        pass,
        region,
    );
    let count = match answer {
        Ok(count) => count,
        Err(fault) => return (pass, Err(fault)),
    };
    match loaded_reply(alloc, schema.name.as_str(), count) {
        Ok(reply) => (pass, Ok(reply)),
        Err(_) => (pass, Err(LoadFault::NoMemory)),
    }
}
