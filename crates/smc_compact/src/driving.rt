//! A drive: a round from its begin to its end, with the epochs that it waits for.
ghost use Rattle.std.specs.Prelude.{◌≡◌, ◌<◌, ◌≤◌, ◌+◌, ◌^◌, Option, Some, None, length};
ghost use Rattle.smc_core.specs.declared.done.Done.TheVariants as done;
ghost use Rattle.smc_region.specs.Advances.{done_of};
ghost use Rattle.smc_region.specs.Callers.{IsPassOf, IsSame};
ghost use Rattle.smc_region.specs.Named.{IsLow, latest};
ghost use Rattle.smc_does.specs.Does.{DoesSome, OwnsNone};
ghost use Rattle.smc_compact.specs.Calls.{IsRoundOf, Keeps};
ghost use Rattle.smc_compact.specs.Drives.{DriveCause, Drives};
ghost use Rattle.smc_compact.specs.Paces.{HasTurns, HasWaited, IsBy, IsByName, Reaches};
ghost use Rattle.smc_compact.specs.Parts.{HasClosed, HasDriven, HasEnded, HasOpened};
ghost use Rattle.smc_compact.specs.Waits.{names, told};

use crate::begun::{Begun, Round};
use crate::cancelling::cancel;
use crate::ending::{Finished, finish};
use crate::outcome::{Outcome, Waited, Waiting};
use crate::rounds::begin;
use smc_region::{Advance, Pass, Region};

/// An epoch is named.
fn names(until: Option<u64>, left: u32, epoch: u64) -> Waiting
    requires low { epoch < 2 ^ 36 }
    ensures is { result ≡ names until left epoch }
    ensures by_name { IsByName result }
{
    let Some(until) = until else {
        return Waiting::GoesOn {
            until: Some(epoch + 2),
            left,
        };
    };
    if epoch < until {
        Waiting::GoesOn {
            until: Some(until),
            left,
        }
    } else {
        Waiting::Ends {
            waited: Waited::Named { left },
        }
    }
}

/// Where a waiting with so many turns left stands after this answer.
fn told(until: Option<u64>, left: u32, answer: Advance) -> Waiting
    requires some { 0 < left }
    requires low { IsLow answer }
    ensures is { told until left (done_of answer) ≡ Some result }
    ensures by { IsBy answer result }
{
    match answer {
        Advance::Advanced { epoch } => names(until, left, epoch),
        Advance::Overtaken { seen } => names(until, left, seen),
        Advance::NotYet { pass, seen } => {
            if 1 < left {
                Waiting::GoesOn {
                    until,
                    left: left - 1,
                }
            } else {
                Waiting::Ends {
                    waited: Waited::Later { pass, seen },
                }
            }
        }
        Advance::Spent => Waiting::Ends {
            waited: Waited::Spent,
        },
    }
}

/// Advances until an answer names the epoch, or `turns` answers were that a section is in the way, or no epoch is left.
fn wait(p: &mut Pass, region: &Region, until: Option<u64>, turns: u32) -> Waited
    requires here { IsPassOf region.now p.old }
    requires turns { 0 < turns }
    ensures same { IsSame p.old p.new }
    ensures keeps { Keeps p.old.local p.new.local }
    ensures waited { HasWaited until turns p.old p.new result }
    ensures round { p.new.local.stand.round ≡ p.old.local.stand.round }
    ensures some { HasTurns result }
    ensures reaches { Reaches until (latest p.new.local.answers) result }
{
    let mut now = until;
    let mut left = turns;
    'turns: loop {
        let answer = p.advance(region);
        match told(now, left, answer) {
            Waiting::GoesOn {
                until: next,
                left: fewer,
            } => {
                now = next;
                left = fewer;
            }
            Waiting::Ends { waited } => return waited,
        }
    }
}

/// Begins a round in a section.
fn open(p: Pass, region: &Region, c: u8) -> (Pass, Begun)
    requires here { IsPassOf region.now p }
    requires coll { c < length p.shape.colls }
    ensures same { IsSame p result.0 }
    ensures keeps { Keeps p.local result.0.local }
    ensures opened { HasOpened c p result.0 result.1 }
{
    let mut section = p.enter(region);
    let begun = begin(&mut section, c);
    (section.leave(), begun)
}

/// How many objects a finish has moved, left where they were, and found gone.
#[derive(Clone, Copy)]
struct Moves {
    moved: u64,
    abandoned: u64,
    gone: u64,
}

/// Finishes the round in a section.
fn finish_round(p: Pass, region: &Region, round: Round) -> (Pass, Moves)
    requires here { IsPassOf region.now p }
    requires round { IsRoundOf p round }
    requires named { round.bound + 2 ≤ latest p.local.answers }
    ensures same { IsSame p result.0 }
    ensures keeps { Keeps p.local result.0.local }
    ensures ended { HasEnded p result.0 (done.Finished result.1.moved result.1.abandoned result.1.gone) }
{
    let mut section = p.enter(region);
    match finish(round, &mut section) {
        Finished::Done {
            moved,
            abandoned,
            gone,
        } => (
            section.leave(),
            Moves {
                moved,
                abandoned,
                gone,
            },
        ),
        Finished::Early(
            Round {
                bound: _,
                coll: _,
                moves: _,
            },
        ) => unreachable!(),
    }
}

/// Cancels the round in a section.
fn cancel_round(p: Pass, region: &Region, round: Round) -> Pass
    requires here { IsPassOf region.now p }
    requires round { IsRoundOf p round }
    ensures same { IsSame p result }
    ensures keeps { Keeps p.local result.local }
    ensures ended { HasEnded p result done.Cancelled }
{
    let mut section = p.enter(region);
    cancel(round, &mut section);
    section.leave()
}

/// Waits for the epoch in which the round can be finished, and finishes it, or cancels it.
fn close(p: Pass, region: &Region, round: Round, turns: u32) -> (Pass, Outcome)
    requires here { IsPassOf region.now p }
    requires round { IsRoundOf p round }
    requires turns { 0 < turns }
    ensures same { IsSame p result.0 }
    ensures keeps { Keeps p.local result.0.local }
    ensures none { OwnsNone result.0 }
    ensures closed { HasClosed round.bound turns p result.0 result.1 }
{
    let mut p = p;
    match wait(&mut p, region, Some(round.bound + 2), turns) {
        Waited::Named { left: _ } => {
            let (p, moves) = finish_round(p, region, round);
            (
                p,
                Outcome::Done {
                    moved: moves.moved,
                    abandoned: moves.abandoned,
                    gone: moves.gone,
                },
            )
        }
        Waited::Later { pass, seen } => {
            (
                cancel_round(p, region, round),
                Outcome::Later { pass, seen },
            )
        }
        Waited::Spent => (cancel_round(p, region, round), Outcome::Spent),
    }
}

/// The same as `drive`, with its calls named once.
fn drive_by_calls(p: Pass, region: &Region, c: u8, turns: u32) -> (Pass, Outcome)
    requires here { IsPassOf region.now p }
    requires coll { c < length p.shape.colls }
    requires turns { 0 < turns }
    requires none { OwnsNone p }
    ensures same { IsSame p result.0 }
    ensures keeps { Keeps p.local result.0.local }
    ensures none { OwnsNone result.0 }
    ensures driven { HasDriven c turns p result.0 result.1 }
{
    let mut p = p;
    let left = match wait(&mut p, region, None, turns) {
        Waited::Named { left } => left,
        Waited::Later { pass, seen } => return (p, Outcome::Later { pass, seen }),
        Waited::Spent => return (p, Outcome::Spent),
    };
    let (p, begun) = open(p, region, c);
    match begun {
        Begun::Round(round) => close(p, region, round, left),
        Begun::Nothing => (p, Outcome::Nothing),
        Begun::Busy { seen } => (p, Outcome::Busy { seen }),
    }
}

/// Moves the objects of the collection into the fewest blocks that hold them: waits for an epoch two above the first that is
/// named, begins a round, waits for the epoch two above its bound, and finishes it. Gives up, with the round cancelled, where
/// `turns` advances met a section in the way, or no epoch is left.
pub fn drive(p: Pass, region: &Region, c: u8, turns: u32) -> (Pass, Outcome)
    requires here { IsPassOf region.now p }
    requires coll { c < length p.shape.colls }
    requires turns { (0 < turns) × (turns ≤ 1_000_000) }
    requires none { OwnsNone p }
    ensures done { DoesSome p result.0 (Drives c turns result.1) }
    ensures cause { DoesSome p result.0 (DriveCause p result.1) }
    ensures home { IsSame p result.0 }
    ensures none { OwnsNone result.0 }
    ensures keeps { Keeps p.local result.0.local }
{
    drive_by_calls(p, region, c, turns)
}
