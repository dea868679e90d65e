//! Four threads at work, and their answers replayed.
ghost use Rattle.std.specs.Prelude.{◌≡◌, ◌<◌, length};
ghost use Rattle.smc_shape.specs.Layout.{width_of};
ghost use Rattle.smc_region.specs.Callers.{IsPassOf};
ghost use Rattle.smc_does.specs.Does.{OwnsNone};

use crate::hand::Hand;
use crate::replay::{Answer, Made, fit, is_needed};
use crate::rooms::{open, take_last};
use smc_compact::drive;
use smc_region::{Pass, Region};
use smc_words::NoMemory;
use std::alloc::Global;
use std::sync::atomic::AtomicU64;
use std::thread::{Threads, join};

/// Makes so many calls. Answers the pass, and what the calls told.
fn work(
    region: &Region,
    clock: &AtomicU64,
    pass: Pass,
    hand: Hand,
    many: u32,
) -> (Pass, Result<Vec<Made>, NoMemory>)
    requires here { IsPassOf region.now pass }
    requires coll { 0 < length region.now.about.shape.colls }
    requires width { width_of region.now.about.shape 0 ≡ 1 }
    ensures here { IsPassOf region.now result.0 × (result.0.number ≡ pass.number) }
{
    let mut pass = pass;
    let mut hand = hand;
    for _ in 0..many {
        let (next, noted) = hand.make(region, clock, pass);
        pass = next;
        if noted.is_err() {
            return (pass, Err(NoMemory));
        }
    }
    (pass, Ok(hand.into_made()))
}

/// Drives so many rounds.
fn pack(region: &Region, pass: Pass, many: u32) -> Pass
    requires here { IsPassOf region.now pass }
    requires coll { 0 < length region.now.about.shape.colls }
    requires free { OwnsNone pass }
    ensures here { IsPassOf region.now result × (result.number ≡ pass.number) }
{
    let mut pass = pass;
    for _ in 0..many {
        let (next, _) = drive(pass, region, 0, 1_000);
        pass = next;
    }
    pass
}

/// A pass that has made calls, and what they told.
type Told = (Pass, Result<Vec<Made>, NoMemory>);

/// Two threads make calls.
fn work_two<R: Threads + Sync>(
    rt: &R,
    region: &Region,
    clock: &AtomicU64,
    one: Pass,
    left: Hand,
    two: Pass,
    right: Hand,
    many: u32,
) -> (Told, Told)
    requires one { IsPassOf region.now one }
    requires two { IsPassOf region.now two }
    requires coll { 0 < length region.now.about.shape.colls }
    requires width { width_of region.now.about.shape 0 ≡ 1 }
    ensures one { IsPassOf region.now result.0.0 × (result.0.0.number ≡ one.number) }
    ensures two { IsPassOf region.now result.1.0 × (result.1.0.number ≡ two.number) }
{
    join(
        rt,
        || work(region, clock, one, left, many),
        || work(region, clock, two, right, many),
    )
}

/// One thread makes calls, and one drives rounds.
fn work_and_pack<R: Threads + Sync>(
    rt: &R,
    region: &Region,
    clock: &AtomicU64,
    three: Pass,
    hand: Hand,
    four: Pass,
    many: u32,
) -> (Told, Pass)
    requires three { IsPassOf region.now three }
    requires four { IsPassOf region.now four }
    requires free { OwnsNone four }
    requires coll { 0 < length region.now.about.shape.colls }
    requires width { width_of region.now.about.shape 0 ≡ 1 }
    ensures three { IsPassOf region.now result.0.0 × (result.0.0.number ≡ three.number) }
    ensures four { IsPassOf region.now result.1 × (result.1.number ≡ four.number) }
{
    join(
        rt,
        || work(region, clock, three, hand, many),
        || pack(region, four, many / 16),
    )
}

/// What came of four threads: the passes, and what was told in three of them.
#[derive(Drop)]
struct Worked {
    one: Told,
    two: Told,
    three: Told,
    four: Pass,
}

/// Three threads make calls, and one drives rounds.
fn work_all<R: Threads + Sync>(
    rt: &R,
    alloc: Global,
    region: &Region,
    one: Pass,
    two: Pass,
    three: Pass,
    four: Pass,
    many: u32,
) -> Worked
    requires one { IsPassOf region.now one }
    requires two { IsPassOf region.now two }
    requires three { IsPassOf region.now three }
    requires four { IsPassOf region.now four }
    requires free { OwnsNone four }
    requires coll { 0 < length region.now.about.shape.colls }
    requires width { width_of region.now.about.shape 0 ≡ 1 }
    ensures one { IsPassOf region.now result.one.0 × (result.one.0.number ≡ one.number) }
    ensures two { IsPassOf region.now result.two.0 × (result.two.0.number ≡ two.number) }
    ensures three { IsPassOf region.now result.three.0 × (result.three.0.number ≡ three.number) }
    ensures four { IsPassOf region.now result.four × (result.four.number ≡ four.number) }
{
    let clock = &AtomicU64::new(0);
    let (left, right, last) = (
        Hand::new(alloc, 1),
        Hand::new(alloc, 2),
        Hand::new(alloc, 3),
    );
    let ((one, two), (three, four)) = join(
        rt,
        ||
            requires passes { IsPassOf region.now one × IsPassOf region.now two }
            requires room { (0 < length region.now.about.shape.colls) × (width_of region.now.about.shape 0 ≡ 1) }
        { work_two(rt, region, clock, one, left, two, right, many) },
        ||
            requires passes { IsPassOf region.now three × IsPassOf region.now four × OwnsNone four }
            requires room { (0 < length region.now.about.shape.colls) × (width_of region.now.about.shape 0 ≡ 1) }
        { work_and_pack(rt, region, clock, three, last, four, many) },
    );
    Worked {
        one,
        two,
        three,
        four,
    }
}

/// Closes the region, with all its passes, and gives its memory back.
fn close(
    alloc: Global,
    region: Region,
    one: Pass,
    two: Pass,
    three: Pass,
    four: Pass,
) -> Result<(), NoMemory>
    requires count { region.about.shape.passes ≡ 4 }
    requires one { IsPassOf region one × (one.number ≡ 0) }
    requires two { IsPassOf region two × (two.number ≡ 1) }
    requires three { IsPassOf region three × (three.number ≡ 2) }
    requires four { IsPassOf region four × (four.number ≡ 3) }
{
    let mut passes = Vec::new(alloc);
    passes.push(one).map_err(|_| NoMemory)?;
    passes.push(two).map_err(|_| NoMemory)?;
    passes.push(three).map_err(|_| NoMemory)?;
    passes.push(four).map_err(|_| NoMemory)?;
    region.close(passes).free();
    Ok(())
}

/// Says whether the answers of three threads, beside which a fourth drives rounds, are those of one plain map, and whether they
/// are so no longer where one of them is falsified.
pub fn work_beside<R: Threads + Sync>(
    rt: &R,
    alloc: Global,
    many: u32,
) -> Result<String, NoMemory> {
    let (region, mut passes) = open(alloc)?;
    let Some(four) = take_last(&region, &mut passes) else {
        return Err(NoMemory);
    };
    let Some(three) = take_last(&region, &mut passes) else {
        return Err(NoMemory);
    };
    let Some(two) = take_last(&region, &mut passes) else {
        return Err(NoMemory);
    };
    let Some(one) = take_last(&region, &mut passes) else {
        return Err(NoMemory);
    };
    let worked = work_all(rt, alloc, &region, one, two, three, four, many);
    let Worked {
        one: (one, first),
        two: (two, second),
        three: (three, third),
        four,
    } = worked;
    close(alloc, region, one, two, three, four)?;
    let mut threads = Vec::new(alloc);
    threads.push(first?)?;
    threads.push(second?)?;
    threads.push(third?)?;
    let word = is_needed(alloc, threads.as_mut_slice(), Answer::Word)?;
    let first = is_needed(alloc, threads.as_mut_slice(), Answer::First)?;
    let fits = fit(alloc, threads.as_slice())?;
    Ok(format!(in alloc;
        "all fit: {fits}; a false word is seen: {word}; a false removal: {first}"
    )?)
}
