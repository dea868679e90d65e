//! One load, from a file in memory.
ghost use Rattle.std.specs.Prelude.{◌≡◌, ◌<◌, IfOk, length};
ghost use Rattle.smc_shape.specs.Layout.{width_of};
ghost use Rattle.smc_region.specs.Callers.{IsPassOf};
ghost use Rattle.smc_types.specs.Columns.{columns_width};

use anyhow::bail;
use smc_load::load;
use smc_objects::{count_objects, read_one};
use smc_outside::MemShelf;
use smc_region::{Pass, Region};
use smc_types::{Keys, NATION, Schema};
use smc_words::Number;
use std::alloc::Global;

/// The name of the one file that there is.
pub const FILE: &str = "table.tbl";

/// The collection of the nations.
pub const NATIONS: u8 = 1;

/// Loads the file of that name over a shelf of one file with these bytes, of which these calls fail. Says how it ended,
/// and how many objects there are behind it.
pub fn load_text(
    alloc: Global,
    bytes: Vec<u8>,
    fails: Vec<u64>,
    name: &str,
    schema: &Schema,
    table: u32,
    coll: u8,
    keys: &mut Keys,
    pass: Pass,
    region: &Region,
) -> anyhow::Result<(Pass, String)>
    requires here { IsPassOf region.now pass }
    requires coll { coll < length region.now.about.shape.colls }
    requires width { columns_width schema.now.columns ≡ width_of region.now.about.shape coll }
    ensures here { IfOk result (λ loaded. IsPassOf region.now loaded.0) }
{
    let mut files = Vec::new(alloc);
    files.push((String::from_str(alloc, FILE)?, bytes))?;
    let mut shelf = MemShelf::new(files, fails);
    let (pass, answer) = load(
        alloc, &mut shelf, name, schema, table, coll, keys, pass, region,
    );
    let (pass, there) = count_objects(pass, region, coll);
    let told = match answer {
        Ok(count) => format!(in alloc; "{count} loaded, {there} there")?,
        Err(fault) => format!(in alloc; "{fault}, {there} there")?,
    };
    Ok((pass, told))
}

/// Says which object the nation of this key refers to.
pub fn reference_of(
    alloc: Global,
    key: u64,
    schema: &Schema,
    keys: &Keys,
    pass: Pass,
    region: &Region,
) -> anyhow::Result<String>
    requires here { IsPassOf region.now pass }
    requires coll { NATIONS < length region.now.about.shape.colls }
    requires width { columns_width schema.now.columns ≡ width_of region.now.about.shape NATIONS }
{
    let number = match keys.get(NATION, key) {
        Some(number) if number.coll == NATIONS => number,
        _ => bail!("no such nation"),
    };
    let mut words = vec![in alloc; 0; schema.width() as usize]?;
    let (_, _) = read_one(pass, region, number, &mut words);
    let word = words.last().copied().unwrap_or(Number::NULL);
    match Number::unpack(word) {
        Some(number) => {
            let entry = number.entry;
            Ok(format!(in alloc; "refers to {entry}")?)
        }
        None => Ok(format!(in alloc; "refers to null")?),
    }
}
