ghost use Rattle.std.specs.Prelude.{◌≡◌, ◌≢◌, ◌+◌, ◌*◌, ◌<◌, ◌∷◌, [], IfOk, IfSome, length};
ghost use Rattle.smc_shape.specs.Layout.{asked};
ghost use Rattle.smc_core.specs.declared.phase.Phase.TheVariants.{Idle};
ghost use Rattle.smc_region.specs.Callers.{IsPassOf, IsSame};
ghost use Rattle.smc_region.specs.Notes.{IsNoteOf};
ghost use Rattle.smc_region.specs.Reached.{IsReached};

use crate::{Act, Advance, Chosen, Note, Pass, Quiet, Region, Section};
use smc_core::{Kind, LAST_EPOCH, Opening};
use smc_shape::{CollShape, Shape};
use smc_words::{NoMemory, Number};
use std::alloc::{AllocError, Global};
use std::thread::{Threads, join};

/// A shape with two passes, and one collection of 64 slots.
fn small(alloc: Global) -> Option<Shape>
    ensures { IfSome result (λ shape. shape ≡ asked 2 (record { width = 1; slots = 64 } ∷ [])) }
{
    let colls = Vec::from_slice(
        alloc,
        &[CollShape {
            width: 1,
            slots: 64,
        }],
    );
    match colls {
        Ok(colls) => match Shape::new(2, colls) {
            Ok(shape) => Some(shape),
            Err(_) => None,
        },
        Err(_) => None,
    }
}

/// Enters and leaves so many times, and tries to advance in between. Answers how often it moved the epoch on.
fn work(region: &Region, pass: Pass, rounds: u32) -> (Pass, u64)
    requires { IsPassOf region.now pass }
    ensures here { IsPassOf region.now result.0 × (result.0.number ≡ pass.number) }
    ensures events { length result.0.local.log ≡ length pass.local.log + 2 * rounds }
{
    let mut pass = pass;
    let mut moved = 0u64;
    for _ in 0..rounds {
        pass = pass.enter(region).leave();
        if let Advance::Advanced { .. } = pass.advance(region) {
            moved = moved.wrapping_add(1);
        }
    }
    (pass, moved)
}

/// Each in a thread of its own.
fn work_both<R: Threads + Sync>(
    rt: &R,
    region: &Region,
    first: Pass,
    second: Pass,
    rounds: u32,
) -> ((Pass, u64), (Pass, u64))
    requires first { IsPassOf region.now first }
    requires second { IsPassOf region.now second }
    ensures first { IsPassOf region.now result.0.0 × (result.0.0.number ≡ first.number)
        × (length result.0.0.local.log ≡ length first.local.log + 2 * rounds) }
    ensures second { IsPassOf region.now result.1.0 × (result.1.0.number ≡ second.number)
        × (length result.1.0.local.log ≡ length second.local.log + 2 * rounds) }
{
    join(
        rt,
        || work(region, first, rounds),
        || work(region, second, rounds),
    )
}

/// Works so, and then makes a note.
fn work_and_note(region: &Region, pass: Pass, rounds: u32) -> (Pass, Note)
    requires { IsPassOf region.now pass }
    ensures here { IsPassOf region.now result.0 × (result.0.number ≡ pass.number) }
    ensures note { IsNoteOf region.now result.1 × (result.1.pass ≡ pass.number) }
    ensures log { length result.1.log ≡ length pass.local.log + 2 * rounds }
    ensures made { length result.0.local.notes ≡ result.1.number + 1 }
{
    let (mut pass, _) = work(region, pass, rounds);
    let note = pass.note(region);
    (pass, note)
}

/// The first pass works in a thread of its own, and the second one learns what the first has seen.
fn work_and_learn<R: Threads + Sync>(
    rt: &R,
    region: &Region,
    first: Pass,
    second: Pass,
    rounds: u32,
) -> (Pass, Pass, u32)
    requires first { IsPassOf region.now first }
    requires second { IsPassOf region.now second }
    requires two { first.number ≢ second.number }
    ensures first { IsPassOf region.now result.0 × (result.0.number ≡ first.number) }
    ensures second { IsPassOf region.now result.1 × (result.1.number ≡ second.number) }
    ensures events { length result.1.local.log ≡ length second.local.log + 2 * rounds + 1 }
    ensures told { result.2 ≡ first.number }
{
    let ((first, note), (mut second, _)) = join(
        rt,
        || work_and_note(region, first, rounds),
        || work(region, second, rounds),
    );
    let told = note.pass();
    second.learn(region, note);
    (first, second, told)
}

/// The region is closed with its two passes.
fn close_two(alloc: Global, region: Region, first: Pass, second: Pass) -> Result<Quiet, NoMemory>
    requires two { region.about.shape.passes ≡ 2 }
    requires first { IsPassOf region first × (first.number ≡ 0) }
    requires second { IsPassOf region second × (second.number ≡ 1) }
    ensures shape { IfOk result (λ quiet. quiet.shape ≡ region.about.shape) }
    ensures locals { IfOk result (λ quiet. quiet.locals ≡ first.local ∷ second.local ∷ []) }
    ensures reached { IfOk result (λ quiet. IsReached quiet.shape quiet.opening quiet.words (first.local ∷ second.local ∷ [])) }
{
    let mut passes = Vec::new(alloc);
    passes.push(first)?;
    passes.push(second)?;
    Ok(region.close(passes))
}

#[test]
fn two_threads_step_on_one_region(rt: HostRuntime) -> Result<(), NoMemory> {
    let Some(shape) = small(rt.alloc()) else {
        return Err(NoMemory);
    };
    let (region, mut passes) = Region::open(rt.alloc(), shape, Opening::plain())?;
    let Some(second) = passes.pop() else {
        return Err(NoMemory);
    };
    let Some(first) = passes.pop() else {
        return Err(NoMemory);
    };
    let ((first, one), (_, other)) = work_both(&rt, &region, first, second, 1_000);
    let section = first.enter(&region);
    assert_eq!(rt; section.epoch(), one.wrapping_add(other).wrapping_add(2));
    Ok(())
}

#[test]
fn an_advance_waits_for_a_section_and_ends_at_the_last_epoch(
    rt: HostRuntime,
) -> Result<(), AllocError> {
    let alloc = rt.alloc();
    let opening = Opening {
        epoch: LAST_EPOCH - 1,
        incarnation: 0,
    };
    let Some(shape) = small(alloc) else {
        return Err(AllocError);
    };
    let Ok((region, mut passes)) = Region::open(alloc, shape, opening) else {
        return Err(AllocError);
    };
    let Some(mut second) = passes.pop() else {
        unreachable!()
    };
    let Some(first) = passes.pop() else {
        unreachable!()
    };
    let section = first.enter(&region);
    assert_eq!(rt;
        (section.pass(), section.epoch(), section.calm()),
        (0, LAST_EPOCH - 1, true)
    );
    assert_eq!(rt; (section.scans(), section.cursor(0)), (0, 0));
    let epoch = LAST_EPOCH;
    assert_eq!(rt; second.advance(&region), Advance::Advanced { epoch });
    assert_eq!(rt; second.advance(&region), Advance::Spent);
    assert_eq!(rt; section.leave().number(), 0);
    Ok(())
}

#[test]
fn what_is_not_there_is_none(rt: HostRuntime) -> Result<(), AllocError> {
    let alloc = rt.alloc();
    let Some(shape) = small(alloc) else {
        return Err(AllocError);
    };
    let Ok((region, mut passes)) = Region::open(alloc, shape, Opening::plain()) else {
        return Err(AllocError);
    };
    let Some(pass) = passes.pop() else {
        unreachable!()
    };
    let mut section = pass.enter(&region);
    let free = Number {
        incarnation: 1,
        entry: 0,
        coll: 0,
    };
    assert!(rt; section.deref(free).is_none());
    assert!(rt; section.deref(Number { entry: 64, ..free }).is_none());
    assert!(rt; section.deref(Number { coll: 7, ..free }).is_none());
    Ok(())
}

#[test]
fn a_closed_region_has_what_its_passes_left(rt: HostRuntime) -> Result<(), NoMemory> {
    let alloc = rt.alloc();
    let Some(shape) = small(alloc) else {
        return Err(NoMemory);
    };
    let (region, mut passes) = Region::open(alloc, shape, Opening::plain())?;
    let Some(second) = passes.pop() else {
        return Err(NoMemory);
    };
    let Some(first) = passes.pop() else {
        return Err(NoMemory);
    };
    let ((first, one), (second, other)) = work_both(&rt, &region, first, second, 10);
    let quiet = close_two(alloc, region, first, second)?;
    assert!(rt; quiet.shape().words() > 3);
    let (epoch, round) = (quiet.word(0), quiet.word(1));
    assert_eq!(rt; epoch, one.wrapping_add(other).wrapping_add(2));
    assert_eq!(rt; (round, quiet.word(2), quiet.word(3)), (0, 0, 0));
    assert_eq!(rt; quiet.shape().passes(), 2);
    quiet.free();
    Ok(())
}

#[test]
fn a_note_of_another_thread_is_learnt_and_one_is_left_over(
    rt: HostRuntime,
) -> Result<(), NoMemory> {
    let alloc = rt.alloc();
    let Some(shape) = small(alloc) else {
        return Err(NoMemory);
    };
    let (region, mut passes) = Region::open(alloc, shape, Opening::plain())?;
    let Some(second) = passes.pop() else {
        return Err(NoMemory);
    };
    let Some(first) = passes.pop() else {
        return Err(NoMemory);
    };
    let (first, mut second, told) = work_and_learn(&rt, &region, first, second, 10);
    assert_eq!(rt; told, 0);
    let spare = second.note(&region);
    let quiet = close_two(alloc, region, first, second)?;
    assert!(rt; quiet.shape().words() > 3);
    assert_eq!(rt; (quiet.word(1), quiet.word(2), quiet.word(3)), (0, 0, 0));
    assert_eq!(rt; spare.pass(), 1);
    quiet.free();
    Ok(())
}

/// Begins a scan by numbers, which loads the own section word. Answers what it found there.
fn begin_scan(section: &mut Section<'_>) -> u64
    requires idle { section.old.local.stand.phase ≡ Idle }
    requires pass { section.old.number < section.old.shape.passes }
    requires coll { 0 < length section.old.shape.colls }
    requires first { length section.old.local.stand.scans ≡ 0 }
    ensures same { IsSame section.old section.new }
    ensures idle { section.new.local.stand.phase ≡ Idle }
    ensures scans { length section.new.local.stand.scans ≡ 1 }
{
    let _ = section.calm();
    let word = section.region().shape().section_at(section.pass());
    let load = Act {
        kind: Kind::LoadSection,
        word,
        expect: 0,
        put: 0,
    };
    section.act(Chosen::Scan { coll: 0 }, load)
}

#[test]
fn a_step_by_numbers_answers_the_number_of_its_word(rt: HostRuntime) -> Result<(), NoMemory> {
    let alloc = rt.alloc();
    let Some(shape) = small(alloc) else {
        return Err(NoMemory);
    };
    let (region, mut passes) = Region::open(alloc, shape, Opening::plain())?;
    let Some(second) = passes.pop() else {
        return Err(NoMemory);
    };
    let Some(first) = passes.pop() else {
        return Err(NoMemory);
    };
    let mut section = first.enter(&region);
    assert_eq!(rt; begin_scan(&mut section), 2);
    assert_eq!(rt; section.scans(), 1);
    let first = section.leave();
    let quiet = close_two(alloc, region, first, second)?;
    assert!(rt; quiet.shape().words() > 3);
    assert_eq!(rt; (quiet.word(2), quiet.word(3)), (0, 0));
    quiet.free();
    Ok(())
}
