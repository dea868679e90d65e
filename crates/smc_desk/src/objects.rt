//! The commands on one object, by its name.
ghost use Rattle.std.specs.Prelude.{◌≡◌, ◌<◌, Err, IfOk, List, Ok, OnOk, Result, Some, length};
ghost use Rattle.smc_words.specs.declared.number.Number.{Number};
ghost use Rattle.smc_region.specs.Callers.{IsPassOf, IsSame};
ghost use Rattle.smc_does.specs.Does.{DoesSome, OwnsNone};
ghost use Rattle.smc_folds.specs.Kinds.{Kind};
ghost use Rattle.smc_shape.specs.Layout.{width_of};
ghost use Rattle.smc_types.specs.Columns.{columns_width};
ghost use Rattle.smc_types.specs.Tables.{the_tables};
ghost use Rattle.smc_script.specs.Sound.{FitsColumn, FitsTable};
ghost use Rattle.smc_script.specs.Tables as tables;
ghost use Rattle.smc_replies.specs.Books.{object_of, with_name};
ghost use Rattle.smc_replies.specs.Commands.{IsTableOf};
ghost use Rattle.smc_replies.specs.Objects.{AddsBy, GetsBy, GetsObject, OnObject, RemovesNamed, SetsBy, add_line};
ghost use Rattle.smc_desk.specs.Scenes.{seen};

use crate::books::{Books, Names};
use crate::columns::{word_of, words_of};
use crate::reply::{Reply, add_reply, found_reply, null_reply, object_reply};
use crate::tables::schema_of;
use smc_load::{RowFault, load_row, place_of};
use smc_objects::{read_one, remove_one, set_one};
use smc_region::{Pass, Region};
use smc_script::{Place, ScriptName, column_at};
use smc_tokens::Name;
use smc_types::{Catalog, Row, Schema, Value};
use smc_words::{NoMemory, Number};
use std::alloc::Global;

// Gives the name to the object that was added, or to none where it was refused.
fn name_object(
    alloc: Global,
    name: &ScriptName,
    object: Option<Number>,
    names: &mut Names,
) -> Result<Reply, NoMemory>
    ensures names { OnOk result (names.new ≡ with_name name.now object names.old) }
    ensures reply { IfOk result (λ reply. reply ≡ add_line object name.now) }
{
    names.put(alloc, name.as_str(), object)?;
    add_reply(alloc, object, name.as_str())
}

/// Adds a row to its table, and gives the name to its object.
pub(crate) fn add(
    alloc: Global,
    place: Place,
    name: &ScriptName,
    row: &Row,
    catalog: &Catalog,
    books: &mut Books,
    pass: Pass,
    region: &Region,
) -> (Pass, Result<Reply, NoMemory>)
    requires here { IsPassOf region.now pass }
    requires tables { catalog.now ≡ the_tables }
    requires table { IsTableOf region.now.about.shape place }
    requires row { FitsTable the_tables place.table row.now }
    ensures done { (kinds : List Kind) → IfOk result.1 (λ reply. DoesSome pass result.0 (λ calls.
        AddsBy (tables.schema_of the_tables place.table) place name.now row.now (seen books.old kinds) (seen books.new kinds) calls reply)) }
    ensures home { IsSame pass result.0 × (OwnsNone pass → OwnsNone result.0) }
{
    let Some(schema) = schema_of(catalog, place.table) else {
        unreachable!();
    };
    let Ok(mut words) = words_of(alloc, row, schema) else {
        return (pass, Err(NoMemory));
    };
    let (pass, answer) = load_row(
        pass,
        region,
        schema,
        place.table,
        place.coll,
        &mut books.keys,
        &mut words,
    );
    match answer {
        Ok(number) => (
            pass,
            name_object(alloc, name, Some(number), &mut books.names),
        ),
        Err(RowFault::Full) => (pass, name_object(alloc, name, None, &mut books.names)),
        Err(RowFault::NoMemory) => (pass, Err(NoMemory)),
    }
}

// Reads the object of this number into these words, which are as many as its columns have, and prints it.
fn print_object(
    alloc: Global,
    schema: &Schema,
    number: Number,
    words: &mut [u64],
    pass: Pass,
    region: &Region,
) -> (Pass, Result<Reply, NoMemory>)
    requires here { IsPassOf region.now pass }
    requires coll { number.coll < length pass.shape.colls }
    requires width { length words.old ≡ width_of pass.shape number.coll }
    requires whole { length words.old ≡ columns_width schema.now.columns }
    ensures done { IfOk result.1 (λ reply. DoesSome pass result.0 (λ calls. GetsObject schema.now.columns number calls reply)) }
    ensures home { IsSame pass result.0 × (OwnsNone pass → OwnsNone result.0) }
{
    let (pass, found) = read_one(pass, region, number, words);
    (pass, object_reply(alloc, schema, found, words))
}

// Reads the object of this number, and prints it.
fn get_object(
    alloc: Global,
    place: Place,
    number: Number,
    catalog: &Catalog,
    pass: Pass,
    region: &Region,
) -> (Pass, Result<Reply, NoMemory>)
    requires here { IsPassOf region.now pass }
    requires tables { catalog.now ≡ the_tables }
    requires table { IsTableOf region.now.about.shape place }
    requires coll { number.coll ≡ place.coll }
    ensures done { IfOk result.1 (λ reply. DoesSome pass result.0 (λ calls. GetsBy (tables.schema_of the_tables place.table) number calls reply)) }
    ensures home { IsSame pass result.0 × (OwnsNone pass → OwnsNone result.0) }
{
    let Some(schema) = schema_of(catalog, place.table) else {
        unreachable!();
    };
    let Ok(mut words) = vec![in alloc; 0u64; schema.width() as usize] else {
        return (pass, Err(NoMemory));
    };
    print_object(alloc, schema, number, &mut words, pass, region)
}

/// Prints the object of the name.
pub(crate) fn get(
    alloc: Global,
    place: Place,
    name: &ScriptName,
    catalog: &Catalog,
    books: &Books,
    pass: Pass,
    region: &Region,
) -> (Pass, Result<Reply, NoMemory>)
    requires here { IsPassOf region.now pass }
    requires tables { catalog.now ≡ the_tables }
    requires table { IsTableOf region.now.about.shape place }
    ensures done { IfOk result.1 (λ reply. DoesSome pass result.0 (λ calls.
        OnObject (object_of books.now.names place.coll name.now) (GetsBy (tables.schema_of the_tables place.table)) calls reply)) }
    ensures home { IsSame pass result.0 × (OwnsNone pass → OwnsNone result.0) }
{
    match books.names.object_of(place.coll, name.as_str()) {
        Some(number) => get_object(alloc, place, number, catalog, pass, region),
        None => (pass, null_reply(alloc)),
    }
}

// Writes the field of a column of the object of this number.
fn set_object(
    alloc: Global,
    place: Place,
    column: &Name,
    value: &Value,
    number: Number,
    catalog: &Catalog,
    pass: Pass,
    region: &Region,
) -> (Pass, Result<Reply, NoMemory>)
    requires here { IsPassOf region.now pass }
    requires tables { catalog.now ≡ the_tables }
    requires table { IsTableOf region.now.about.shape place }
    requires value { FitsColumn the_tables place.table column.now value.now }
    requires coll { number.coll ≡ place.coll }
    ensures done { IfOk result.1 (λ reply. DoesSome pass result.0 (λ calls.
        SetsBy (tables.schema_of the_tables place.table) column.now value.now number calls reply)) }
    ensures home { IsSame pass result.0 × (OwnsNone pass → OwnsNone result.0) }
{
    let Some(schema) = schema_of(catalog, place.table) else {
        unreachable!();
    };
    let columns = schema.columns.as_slice();
    let Some(at) = column_at(columns, column.as_str()) else {
        unreachable!();
    };
    let word = word_of(columns[at].kind, value);
    let (pass, found) = set_one(pass, region, number, place_of(columns, at), word);
    (pass, found_reply(alloc, found, "set\n"))
}

/// Writes a column of the object of the name.
pub(crate) fn set(
    alloc: Global,
    place: Place,
    name: &ScriptName,
    column: &Name,
    value: &Value,
    catalog: &Catalog,
    books: &Books,
    pass: Pass,
    region: &Region,
) -> (Pass, Result<Reply, NoMemory>)
    requires here { IsPassOf region.now pass }
    requires tables { catalog.now ≡ the_tables }
    requires table { IsTableOf region.now.about.shape place }
    requires value { FitsColumn the_tables place.table column.now value.now }
    ensures done { IfOk result.1 (λ reply. DoesSome pass result.0 (λ calls.
        OnObject (object_of books.now.names place.coll name.now) (SetsBy (tables.schema_of the_tables place.table) column.now value.now) calls reply)) }
    ensures home { IsSame pass result.0 × (OwnsNone pass → OwnsNone result.0) }
{
    match books.names.object_of(place.coll, name.as_str()) {
        Some(number) => set_object(alloc, place, column, value, number, catalog, pass, region),
        None => (pass, null_reply(alloc)),
    }
}

/// Removes the object of the name.
pub(crate) fn remove(
    alloc: Global,
    place: Place,
    name: &ScriptName,
    books: &Books,
    pass: Pass,
    region: &Region,
) -> (Pass, Result<Reply, NoMemory>)
    requires here { IsPassOf region.now pass }
    ensures done { IfOk result.1 (λ reply. DoesSome pass result.0 (λ calls. OnObject (object_of books.now.names place.coll name.now) RemovesNamed calls reply)) }
    ensures home { IsSame pass result.0 × (OwnsNone pass → OwnsNone result.0) }
{
    let Some(number) = books.names.object_of(place.coll, name.as_str()) else {
        return (pass, null_reply(alloc));
    };
    let (pass, gone) = remove_one(pass, region, number);
    (pass, found_reply(alloc, gone, "removed\n"))
}
