//! Two threads that add.
ghost use Rattle.std.specs.Prelude.{◌≡◌, ◌≢◌, ◌<◌, length};
ghost use Rattle.smc_shape.specs.Layout.{width_of};
ghost use Rattle.smc_region.specs.Callers.{IsPassOf};

use crate::rooms::open;
use smc_objects::{add_one, count_objects};
use smc_region::{Pass, Region};
use smc_words::NoMemory;
use std::alloc::Global;
use std::thread::{Threads, join};

/// Adds so many objects, each in a section of its own. Answers how many it added.
pub fn work(region: &Region, pass: Pass, many: u32) -> (Pass, u64)
    requires here { IsPassOf region.now pass }
    requires coll { 0 < length region.now.about.shape.colls }
    requires width { width_of region.now.about.shape 0 ≡ 1 }
    ensures here { IsPassOf region.now result.0 × (result.0.number ≡ pass.number) }
{
    let mut pass = pass;
    let mut added = 0u64;
    for _ in 0..many {
        let (next, answer) = add_one(pass, region, 0, &[7]);
        pass = next;
        if answer.is_ok() {
            added = added.wrapping_add(1);
        }
    }
    (pass, added)
}

/// Each adds in a thread of its own; then the first learns what the second has seen, and counts the objects.
fn work_and_count<R: Threads + Sync>(
    rt: &R,
    region: &Region,
    first: Pass,
    second: Pass,
    many: u32,
) -> (u64, u64, u64)
    requires first { IsPassOf region.now first }
    requires second { IsPassOf region.now second }
    requires two { first.number ≢ second.number }
    requires coll { 0 < length region.now.about.shape.colls }
    requires width { width_of region.now.about.shape 0 ≡ 1 }
{
    let ((mut first, one), (mut second, other)) = join(
        rt,
        || work(region, first, many),
        || work(region, second, many),
    );
    let note = second.note(region);
    first.learn(region, note);
    let (_, all) = count_objects(first, region, 0);
    (one, other, all)
}

/// How many objects each of two threads added, and how many the first counts.
pub fn add_beside<R: Threads + Sync>(
    rt: &R,
    alloc: Global,
    many: u32,
) -> Result<(u64, u64, u64), NoMemory> {
    let (region, mut passes) = open(alloc)?;
    let Some(second) = passes.pop() else {
        return Err(NoMemory);
    };
    let Some(first) = passes.pop() else {
        return Err(NoMemory);
    };
    Ok(work_and_count(rt, &region, first, second, many))
}
