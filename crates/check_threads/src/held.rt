//! A drive that a section holds up.
ghost use Rattle.std.specs.Prelude.{◌≡◌, ◌<◌, length};
ghost use Rattle.smc_shape.specs.Layout.{width_of};
ghost use Rattle.smc_region.specs.Callers.{IsPassOf};
ghost use Rattle.smc_does.specs.Does.{OwnsNone};

use crate::rooms::open;
use smc_compact::{Outcome, drive};
use smc_objects::{add_one, read};
use smc_region::{Pass, Region};
use smc_words::NoMemory;
use std::alloc::Global;

/// How the drive ended that was held up, what the section then read of its object, and how the drive ended behind it.
#[derive(Drop)]
struct HeldUp {
    late: Outcome,
    word: u64,
    end: Outcome,
}

/// How a drive ended, in words.
fn told_of(alloc: Global, outcome: Outcome) -> Result<String, NoMemory> {
    let told = match outcome {
        Outcome::Done { moved, .. } => format!(in alloc; "moved {moved}")?,
        Outcome::Nothing => format!(in alloc; "nothing")?,
        Outcome::Busy { .. } => format!(in alloc; "busy")?,
        Outcome::Later { pass, seen } => format!(in alloc; "later, pass {pass} at {seen}")?,
        Outcome::Spent => format!(in alloc; "spent")?,
    };
    Ok(told)
}

/// One pass stays in a section that holds an object of the word 7, while the other drives; it drives again once the first
/// has left.
fn hold(region: &Region, one: Pass, other: Pass) -> Option<HeldUp>
    requires one { IsPassOf region.now one }
    requires other { IsPassOf region.now other }
    requires free { OwnsNone other }
    requires coll { 0 < length region.now.about.shape.colls }
    requires width { width_of region.now.about.shape 0 ≡ 1 }
{
    let (one, answer) = add_one(one, region, 0, &[7]);
    let Ok(number) = answer else {
        return None;
    };
    let mut section = one.enter(region);
    let held = section.deref(number)?;
    let (other, late) = drive(other, region, 0, 5);
    let word = read(&mut section, held, 0);
    section.leave();
    let (_, end) = drive(other, region, 0, 5);
    Some(HeldUp { late, word, end })
}

/// Says how it came out.
pub fn held_up(alloc: Global) -> Result<String, NoMemory> {
    let (region, mut passes) = open(alloc)?;
    let (Some(other), Some(one)) = (passes.pop(), passes.pop()) else {
        return Err(NoMemory);
    };
    let Some(seen) = hold(&region, one, other) else {
        return Err(NoMemory);
    };
    let late = told_of(alloc, seen.late)?;
    let end = told_of(alloc, seen.end)?;
    let word = seen.word;
    Ok(format!(in alloc; "{late}; read {word}; {end}")?)
}
