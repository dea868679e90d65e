//! A schedule is played step by step, up to the first step that is refused.
ghost use Rattle.std.specs.Prelude.{◌≡◌, IfOk, IfErr, OnOk, OnErr};
ghost use Rattle.smc_machine.specs.Plays.{Plays, PlaysOne, StopsAt, IsStopped};

use crate::grow::{add, make_room};
use crate::machine::Machine;
use crate::step::{PlayFault, StepFault};
use smc_core::Choice;
use smc_model::Event;
use smc_words::NoMemory;
use std::alloc::Global;

/// Plays a schedule: each step is that of a pass and a choice. Tells what happened, in order.
///
/// The first step that is refused ends it. The machine stands where the steps before it have led.
pub fn play(
    alloc: Global,
    machine: &mut Machine,
    schedule: &[(u32, Choice)],
) -> Result<Vec<Event>, PlayFault>
    ensures shape { machine.new.shape ≡ machine.old.shape }
    ensures done { IfOk result (λ events. Plays machine.old.shape machine.old.machine
        schedule.now events.items machine.new.machine) }
    ensures refused { IfErr result (StopsAt machine.old machine.new schedule.now) }
{
    let mut events = Vec::new(alloc);
    for at in 0..schedule.len() {
        let (pass, choice) = &schedule[at];
        if let Err(fault) = play_step(machine, *pass, choice, &mut events) {
            return Err(PlayFault {
                at: at as u64,
                fault,
            });
        }
    }
    Ok(events)
}

/// Plays one step. What it tells goes behind the other events, for which memory is taken first.
fn play_step(
    machine: &mut Machine,
    pass: u32,
    choice: &Choice,
    events: &mut Vec<Event>,
) -> Result<(), StepFault>
    ensures shape { machine.new.shape ≡ machine.old.shape }
    ensures done { OnOk result (PlaysOne machine.old.shape machine.old.machine pass choice.now
        events.old.items events.new.items machine.new.machine) }
    ensures cause { IfErr result (IsStopped machine.old pass choice.now) }
    ensures kept { OnErr result (machine.new ≡ machine.old) }
{
    match make_room(events) {
        Ok(()) => {}
        Err(NoMemory) => return Err(StepFault::NoMemory),
    }
    match machine.take(pass, choice) {
        Ok(step) => {
            add(events, step.event);
            Ok(())
        }
        Err(fault) => Err(fault),
    }
}
