//! One pass alone, in a room that it fills.
ghost use Rattle.std.specs.Prelude.{◌≡◌, ◌<◌, IfOk, length};
ghost use Rattle.smc_shape.specs.Layout.{width_of};
ghost use Rattle.smc_region.specs.Callers.{IsPassOf};

use crate::rooms::open;
use crate::two::work;
use smc_objects::{Full, add_one, count_objects, read_one, remove_one, set_one};
use smc_region::{Pass, Region};
use smc_words::{NoMemory, Number};
use std::alloc::Global;

/// Writes 9 to the object's field, and answers what is read there.
fn write_and_read(region: &Region, pass: Pass, number: Number) -> (Pass, u64)
    requires here { IsPassOf region.now pass }
    requires coll { 0 < length region.now.about.shape.colls }
    requires width { width_of region.now.about.shape 0 ≡ 1 }
    requires number { number.coll ≡ 0 }
    ensures here { IsPassOf region.now result.0 }
{
    let mut words = [0u64; 1];
    let (pass, _) = set_one(pass, region, number, 0, 9);
    let (pass, _) = read_one(pass, region, number, &mut words);
    (pass, words[0])
}

/// Adds an object, fills the room, and adds one more; writes the first, reads it, and removes it twice; counts what is left. Says
/// how each came out.
pub fn come_and_go(alloc: Global) -> Result<String, NoMemory> {
    let (region, mut passes) = open(alloc)?;
    let Some(pass) = passes.pop() else {
        return Err(NoMemory);
    };
    let (pass, answer) = add_one(pass, &region, 0, &[7]);
    let Ok(number) = answer else {
        return Err(NoMemory);
    };
    let (pass, added) = work(&region, pass, 4_095);
    let (pass, more) = add_one(pass, &region, 0, &[7]);
    let full = more == Err(Full::Slots);
    let (pass, word) = write_and_read(&region, pass, number);
    let (pass, first) = remove_one(pass, &region, number);
    let (pass, again) = remove_one(pass, &region, number);
    let (_, left) = count_objects(pass, &region, 0);
    Ok(format!(in alloc;
        "{added} more; full: {full}; word {word}; removed: {first}, {again}; {left} left"
    )?)
}
