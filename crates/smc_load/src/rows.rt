//! A row of a table is added as one object.
ghost use Rattle.std.specs.Prelude.{◌≡◌, ◌<◌, IfOk, OnErr, OnOk, length, slice_index};
ghost use Rattle.smc_shape.specs.Layout.{width_of};
ghost use Rattle.smc_words.specs.Number.{FitsNumber};
ghost use Rattle.smc_region.specs.Callers.{IsPassOf};
ghost use Rattle.smc_types.specs.Columns.{columns_width};
ghost use Rattle.smc_tbl.specs.Words.{AreRowWords};
ghost use Rattle.smc_load.specs.Loading.{AddEnds, PutsKey, RowEnds};

use crate::references::push_references;
use smc_objects::add_one;
use smc_region::{Pass, Region};
use smc_types::{Keys, Schema};
use smc_words::{NoMemory, Number};

/// Why a row was not loaded.
#[derive(Clone, Copy)]
pub enum RowFault {
    /// Both tries to add the object were refused. Nothing was put.
    Full,
    /// Memory was refused. The object may have been added, but no key was put.
    NoMemory,
}

// Puts the number of an object under its key, where the objects of its table are found by one.
fn put_key(
    keys: &mut Keys,
    keyed: bool,
    table: u32,
    key: u64,
    number: Number,
) -> Result<(), NoMemory>
    requires { FitsNumber number }
    ensures done { OnOk result (PutsKey keyed table key number keys.old keys.new) }
    ensures kept { OnErr result (keys.new ≡ keys.old) }
{
    if keyed {
        keys.put(table, key, number)?;
    }
    Ok(())
}

// The first word of a row, which is its key.
fn first_word(words: &[u64]) -> u64
    ensures { result ≡ slice_index words.now 0 }
{
    words.get(0).copied().unwrap_or(0)
}

/// Adds the row of these words as one object, in a section of its own, and puts no key. Answers the object's number.
///
/// The words of the references are put behind those of the row, each the number that stands in `keys` under its key, null
/// where there is none. Where the object is refused the pass advances three times and tries once more.
pub fn add_row(
    pass: Pass,
    region: &Region,
    schema: &Schema,
    coll: u8,
    keys: &Keys,
    words: &mut Vec<u64>,
) -> (Pass, Result<Number, RowFault>)
    requires here { IsPassOf region.now pass }
    requires coll { coll < length region.now.about.shape.colls }
    requires width { columns_width schema.now.columns ≡ width_of region.now.about.shape coll }
    requires row { AreRowWords schema.now words.old.items }
    ensures ends { AddEnds result.1 schema.now coll keys.now words.old.items pass result.0 }
    ensures fits { IfOk result.1 FitsNumber }
{
    let Ok(()) = push_references(words, schema.columns.as_slice(), keys) else {
        return (pass, Err(RowFault::NoMemory));
    };
    let (pass, answer) = add_one(pass, region, coll, words);
    match answer {
        Ok(number) => (pass, Ok(number)),
        Err(_) => (pass, Err(RowFault::Full)),
    }
}

/// Loads the row of these words: adds its object, and puts its key. Answers the object's number.
pub fn load_row(
    pass: Pass,
    region: &Region,
    schema: &Schema,
    table: u32,
    coll: u8,
    keys: &mut Keys,
    words: &mut Vec<u64>,
) -> (Pass, Result<Number, RowFault>)
    requires here { IsPassOf region.now pass }
    requires coll { coll < length region.now.about.shape.colls }
    requires width { columns_width schema.now.columns ≡ width_of region.now.about.shape coll }
    requires row { AreRowWords schema.now words.old.items }
    ensures { RowEnds result.1 schema.now table coll keys.old keys.new words.old.items pass result.0 }
{
    let key = first_word(words);
    let (pass, answer) = add_row(pass, region, schema, coll, keys, words);
    let number = match answer {
        Ok(number) => number,
        Err(fault) => return (pass, Err(fault)),
    };
    match put_key(keys, schema.keyed, table, key, number) {
        Ok(()) => (pass, Ok(number)),
        Err(_) => (pass, Err(RowFault::NoMemory)),
    }
}
