//! Steps that are refused, and what comes after them.
use super::{add, calls, ends, follow, refused, region, starts};
use crate::{PlayFault, StepFault, play};
use smc_core::{Call, Choice, Done, Opening};
use smc_model::Event;
use std::alloc::{AllocError, Global};
use std::test::Fail;

#[test]
fn a_machine_goes_on_after_a_refused_step(rt: HostRuntime) -> Result<(), Fail> {
    let alloc = rt.alloc();
    let mut machine = region(alloc, 2, 1, 64, Opening::plain())?;
    let lines = vec![in alloc;
        refused(2, Call::Enter, StepFault::NoPass),
        refused(u32::MAX, Call::Note, StepFault::NoPass),
        refused(0, Call::Leave, StepFault::NotOffered),
        calls(0, Call::Enter, Done::At { epoch: 2 }),
        refused(0, Call::Enter, StepFault::NotOffered),
        starts(0, add(alloc, 0, &[7])?),
        refused(0, Call::Leave, StepFault::NotOffered),
        refused(2, Call::Leave, StepFault::NoPass),
        ends(0, Done::Made { slot: 0 }),
        calls(0, Call::Leave, Done::Out),
    ]?;
    follow(&rt, &mut machine, lines);
    Ok(())
}

#[test]
fn a_note_is_learnt_once_and_by_another_pass(rt: HostRuntime) -> Result<(), Fail> {
    let alloc = rt.alloc();
    let mut machine = region(alloc, 3, 1, 64, Opening::plain())?;
    let lines = vec![in alloc;
        refused(1, Call::Learn { pass: 0, note: 0 }, StepFault::NotOffered),
        calls(0, Call::Note, Done::Noted { note: 0 }),
        refused(0, Call::Learn { pass: 0, note: 0 }, StepFault::NotOffered),
        calls(1, Call::Learn { pass: 0, note: 0 }, Done::Learned),
        refused(2, Call::Learn { pass: 0, note: 0 }, StepFault::NotOffered),
        calls(0, Call::Note, Done::Noted { note: 1 }),
        calls(2, Call::Learn { pass: 0, note: 1 }, Done::Learned),
    ]?;
    follow(&rt, &mut machine, lines);
    Ok(())
}

/// A call of the first pass, so many further steps of it, and then a step of the pass that is named.
fn schedule(
    alloc: Global,
    call: Call,
    steps: u32,
    last: (u32, Choice),
) -> Result<Vec<(u32, Choice)>, AllocError> {
    let mut schedule = vec![in alloc; (0, Choice::Start(call))]?;
    for _ in 0..steps {
        schedule.push((0, Choice::Go))?;
    }
    schedule.push(last)?;
    Ok(schedule)
}

#[test]
fn a_schedule_is_played_up_to_its_first_refused_step(rt: HostRuntime) -> Result<(), Fail> {
    let alloc = rt.alloc();
    let mut machine = region(alloc, 2, 1, 64, Opening::plain())?;

    // A section begins in five steps.
    let one_too_many = schedule(alloc, Call::Enter, 4, (0, Choice::Go))?;
    let stop = play(alloc, &mut machine, &one_too_many).map(|events| events.len());
    assert_eq!(rt;
        stop,
        Err(PlayFault {
            at: 5,
            fault: StepFault::NotOffered
        })
    );

    // It has begun, so it cannot begin again.
    let stop = play(alloc, &mut machine, &one_too_many).map(|events| events.len());
    assert_eq!(rt;
        stop,
        Err(PlayFault {
            at: 0,
            fault: StepFault::NotOffered
        })
    );

    let of_no_pass = schedule(alloc, Call::Survey { coll: 0 }, 2, (2, Choice::Go))?;
    let stop = play(alloc, &mut machine, &of_no_pass).map(|events| events.len());
    assert_eq!(rt;
        stop,
        Err(PlayFault {
            at: 3,
            fault: StepFault::NoPass
        })
    );
    Ok(())
}

#[test]
fn a_schedule_tells_its_events_in_order(rt: HostRuntime) -> Result<(), Fail> {
    let alloc = rt.alloc();
    let mut machine = region(alloc, 2, 1, 64, Opening::plain())?;
    let section = schedule(alloc, Call::Enter, 4, (0, Choice::Start(Call::Leave)))?;
    let Ok(events) = play(alloc, &mut machine, &section) else {
        assert!(rt; false, "each step is offered");
        return Ok(());
    };
    assert!(rt; matches!(events.as_slice(), [Event::Enter, Event::Leave]));
    Ok(())
}
