//! What a line says is done.
use crate::loads::{FILE, NATIONS, load_text, reference_of};
use crate::rooms::open;
use anyhow::bail;
use smc_objects::remove_one;
use smc_types::{Catalog, Keys, NATION, REGION};
use std::alloc::Global;

/// The collection of the regions.
const REGIONS: u8 = 0;

/// Does what a line says, and says how it came out.
pub fn told_of(alloc: Global, catalog: &Catalog, line: &str) -> anyhow::Result<String> {
    let Some((form, text)) = line.split_once(' ') else {
        bail!("a line without a text");
    };
    match form {
        "load" => alone(alloc, catalog, FILE, Vec::new(alloc), text),
        "missing" => alone(alloc, catalog, "other.tbl", Vec::new(alloc), text),
        "fail" => failing(alloc, catalog, text),
        "again" => again(alloc, catalog, text),
        "first" => regions_first(alloc, catalog, text),
        "later" => regions_later(alloc, catalog, text),
        _ => bail!("a line of no form"),
    }
}

/// The bytes of a file of this text.
fn file_of(alloc: Global, text: &str) -> anyhow::Result<Vec<u8>> {
    let lines = text.replace(alloc, ";", "\n")?;
    match lines.as_str().split_once(" times ") {
        Some((count, part)) => {
            let count = count.parse::<usize>()?;
            Ok(part.as_bytes().repeat(alloc, count)?)
        }
        None => Ok(lines.as_bytes().to_vec(alloc)?),
    }
}

/// The two texts of a line.
fn two_of(texts: &str) -> anyhow::Result<(&str, &str)> {
    match texts.split_once(" / ") {
        Some(two) => Ok(two),
        None => bail!("one text alone"),
    }
}

/// Regions are loaded from the file of that name.
fn alone(
    alloc: Global,
    catalog: &Catalog,
    name: &str,
    fails: Vec<u64>,
    text: &str,
) -> anyhow::Result<String> {
    let schema = catalog.schema(REGION);
    let (region, pass) = open(alloc, schema, catalog.schema(NATION))?;
    let mut keys = Keys::new(alloc);
    let bytes = file_of(alloc, text)?;
    let (_, told) = load_text(
        alloc, bytes, fails, name, schema, REGION, REGIONS, &mut keys, pass, &region,
    )?;
    Ok(told)
}

/// Regions are loaded over a shelf that fails at a call.
fn failing(alloc: Global, catalog: &Catalog, line: &str) -> anyhow::Result<String> {
    let Some((call, text)) = line.split_once(' ') else {
        bail!("a call without a text");
    };
    let mut fails = Vec::new(alloc);
    fails.push(call.parse::<u64>()?)?;
    alone(alloc, catalog, FILE, fails, text)
}

/// Regions are loaded, the region of key 1 is removed, and regions are loaded once more.
fn again(alloc: Global, catalog: &Catalog, texts: &str) -> anyhow::Result<String> {
    let (one, other) = two_of(texts)?;
    let schema = catalog.schema(REGION);
    let (region, pass) = open(alloc, schema, catalog.schema(NATION))?;
    let mut keys = Keys::new(alloc);
    let (bytes, none) = (file_of(alloc, one)?, Vec::new(alloc));
    let (pass, first) = load_text(
        alloc, bytes, none, FILE, schema, REGION, REGIONS, &mut keys, pass, &region,
    )?;
    let Some(number) = keys.get(REGION, 1) else {
        bail!("no region of key 1");
    };
    let (pass, _) = remove_one(pass, &region, number);
    let (bytes, none) = (file_of(alloc, other)?, Vec::new(alloc));
    let (_, second) = load_text(
        alloc, bytes, none, FILE, schema, REGION, REGIONS, &mut keys, pass, &region,
    )?;
    Ok(format!(in alloc; "{first}; {second}")?)
}

/// Regions are loaded and then nations.
fn regions_first(alloc: Global, catalog: &Catalog, texts: &str) -> anyhow::Result<String> {
    let (one, other) = two_of(texts)?;
    let (regions, nations) = (catalog.schema(REGION), catalog.schema(NATION));
    let (region, pass) = open(alloc, regions, nations)?;
    let mut keys = Keys::new(alloc);
    let (bytes, none) = (file_of(alloc, one)?, Vec::new(alloc));
    let (pass, first) = load_text(
        alloc, bytes, none, FILE, regions, REGION, REGIONS, &mut keys, pass, &region,
    )?;
    let (bytes, none) = (file_of(alloc, other)?, Vec::new(alloc));
    let (pass, second) = load_text(
        alloc, bytes, none, FILE, nations, NATION, NATIONS, &mut keys, pass, &region,
    )?;
    let refers = reference_of(alloc, 8, nations, &keys, pass, &region)?;
    Ok(format!(in alloc; "{first}; {second}; {refers}")?)
}

/// Nations are loaded and then regions.
fn regions_later(alloc: Global, catalog: &Catalog, texts: &str) -> anyhow::Result<String> {
    let (one, other) = two_of(texts)?;
    let (regions, nations) = (catalog.schema(REGION), catalog.schema(NATION));
    let (region, pass) = open(alloc, regions, nations)?;
    let mut keys = Keys::new(alloc);
    let (bytes, none) = (file_of(alloc, one)?, Vec::new(alloc));
    let (pass, first) = load_text(
        alloc, bytes, none, FILE, nations, NATION, NATIONS, &mut keys, pass, &region,
    )?;
    let (bytes, none) = (file_of(alloc, other)?, Vec::new(alloc));
    let (pass, second) = load_text(
        alloc, bytes, none, FILE, regions, REGION, REGIONS, &mut keys, pass, &region,
    )?;
    let refers = reference_of(alloc, 8, nations, &keys, pass, &region)?;
    Ok(format!(in alloc; "{first}; {second}; {refers}")?)
}
