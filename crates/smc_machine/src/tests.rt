//! Schedules that are played with memory to spare, line by line.
ghost use Rattle.smc_core.specs.Machine.{IsOpening};

mod faults;
mod worked;

use crate::{Machine, StepFault};
use smc_core::{Call, Choice, Done, Opening};
use smc_model::Record;
use smc_shape::{CollShape, Shape};
use smc_words::{NoMemory, Number};
use std::alloc::Global;
use std::process::Abort;
use std::test::Fail;

/// What a pass is to do.
#[derive(Drop)]
enum Does {
    /// The first step of a call.
    Starts(Call),
    /// So many more steps of the call in progress.
    Takes(u32),
    /// A call from its first step to its end.
    Calls(Call),
    /// The call in progress to its end.
    Ends,
}

/// A line of a schedule, and what the call that ends there answers, or why the line is refused.
#[derive(Drop)]
struct Line {
    pass: u32,
    does: Does,
    wanted: Result<Option<Done>, StepFault>,
}

/// More steps than a call of these schedules takes.
const MANY: u32 = 3000;

fn starts(pass: u32, call: Call) -> Line {
    Line {
        pass,
        does: Does::Starts(call),
        wanted: Ok(None),
    }
}

fn takes(pass: u32, steps: u32) -> Line {
    Line {
        pass,
        does: Does::Takes(steps),
        wanted: Ok(None),
    }
}

fn calls(pass: u32, call: Call, done: Done) -> Line {
    Line {
        pass,
        does: Does::Calls(call),
        wanted: Ok(Some(done)),
    }
}

fn ends(pass: u32, done: Done) -> Line {
    Line {
        pass,
        does: Does::Ends,
        wanted: Ok(Some(done)),
    }
}

fn refused(pass: u32, call: Call, fault: StepFault) -> Line {
    Line {
        pass,
        does: Does::Starts(call),
        wanted: Err(fault),
    }
}

/// An add to the first collection.
fn add(alloc: Global, from: u32, words: &[u64]) -> Result<Call, NoMemory> {
    Ok(Call::Add {
        coll: 0,
        from,
        words: Record::of(alloc, words)?,
    })
}

/// The object of the first collection with this incarnation of this entry.
fn object(incarnation: u32, entry: u32) -> Number {
    Number {
        incarnation,
        entry,
        coll: 0,
    }
}

/// A machine of one collection, with as many entries as slots.
fn region(
    alloc: Global,
    passes: u32,
    width: u32,
    slots: u32,
    opening: Opening,
) -> Result<Machine, Fail>
    requires { IsOpening opening }
{
    let shape = Shape::new(passes, vec![in alloc; CollShape { width, slots }]?)?;
    Ok(Machine::open(alloc, shape, opening)?)
}

/// Plays a line, to the end of the call where one ends, and says what the call answers.
fn play_line(machine: &mut Machine, pass: u32, does: Does) -> Result<Option<Done>, StepFault> {
    let steps = match does {
        Does::Starts(call) => return Ok(machine.step(pass, Choice::Start(call))?.done),
        Does::Calls(call) => {
            let step = machine.step(pass, Choice::Start(call))?;
            if step.done.is_some() {
                return Ok(step.done);
            }
            MANY
        }
        Does::Takes(steps) => steps,
        Does::Ends => MANY,
    };
    for _ in 0..steps {
        let step = machine.step(pass, Choice::Go)?;
        if step.done.is_some() {
            return Ok(step.done);
        }
    }
    Ok(None)
}

/// Plays the lines, each of which answers what it says.
fn follow(rt: &impl Abort, machine: &mut Machine, lines: Vec<Line>) {
    let mut at = 0_u64;
    for line in lines {
        at = at.saturating_add(1);
        let pass = line.pass;
        let answer = play_line(machine, pass, line.does);
        assert_eq!(rt; answer, line.wanted, "in line {at}, of pass {pass}");
    }
}
