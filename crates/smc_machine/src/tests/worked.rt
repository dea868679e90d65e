//! The worked schedules whose answers the definitions give.
use super::{add, calls, ends, follow, object, region, starts, takes};
use crate::Machine;
use smc_core::{Call, Done, Opening};
use smc_model::Cause;
use std::alloc::Global;
use std::process::Abort;
use std::test::Fail;

/// A region that opens at the epoch in which the rounds begin here.
const LATER: Opening = Opening {
    epoch: 5,
    incarnation: 0,
};

/// Two objects in two blocks, a round that is to move the second beside the first, and two advances.
fn begin_a_round(
    rt: &impl Abort,
    alloc: Global,
    machine: &mut Machine,
    first: &[u64],
    second: &[u64],
) -> Result<(), Fail> {
    let frozen = Done::Round {
        coll: 0,
        bound: 6,
        moves: 1,
    };
    let lines = vec![in alloc;
        calls(0, Call::Enter, Done::At { epoch: 5 }),
        calls(0, add(alloc, 0, first)?, Done::Made { slot: 0 }),
        calls(0, add(alloc, 64, second)?, Done::Made { slot: 64 }),
        calls(0, Call::Begin { coll: 0 }, frozen),
        calls(0, Call::Leave, Done::Out),
        calls(0, Call::Advance, Done::Advanced { epoch: 6 }),
        calls(0, Call::Advance, Done::Advanced { epoch: 7 }),
    ]?;
    follow(rt, machine, lines);
    Ok(())
}

/// What a finish answers.
fn finished(moved: u64, abandoned: u64) -> Done {
    Done::Finished {
        moved,
        abandoned,
        gone: 0,
    }
}

#[test]
fn a_reader_that_is_not_calm_abandons_a_move(rt: HostRuntime) -> Result<(), Fail> {
    let alloc = rt.alloc();
    let number = object(1, 64);
    let write = Call::Write {
        number,
        field: 0,
        value: 33,
    };
    let mut machine = region(alloc, 2, 1, 128, LATER)?;
    begin_a_round(&rt, alloc, &mut machine, &[11], &[22])?;
    let lines = vec![in alloc;
        calls(1, Call::Enter, Done::At { epoch: 7 }),
        calls(1, Call::Look { number }, Done::Here { slot: 64 }),
        calls(1, write, Done::Written),
        calls(0, Call::Advance, Done::Advanced { epoch: 8 }),
        calls(0, Call::Enter, Done::At { epoch: 8 }),
        calls(0, Call::Finish, finished(0, 1)),
        calls(
            1,
            Call::Read { number, field: 0 },
            Done::Value { value: 33 }
        ),
    ]?;
    follow(&rt, &mut machine, lines);
    Ok(())
}

#[test]
fn a_reader_helps_a_locked_move_and_its_write_stays(rt: HostRuntime) -> Result<(), Fail> {
    let alloc = rt.alloc();
    let number = object(1, 64);
    let write = Call::Write {
        number,
        field: 1,
        value: 99,
    };
    let mut machine = region(alloc, 2, 2, 128, LATER)?;
    begin_a_round(&rt, alloc, &mut machine, &[11, 12], &[21, 22])?;
    let lines = vec![in alloc;
        calls(0, Call::Advance, Done::Advanced { epoch: 8 }),
        calls(0, Call::Enter, Done::At { epoch: 8 }),
        starts(0, Call::Finish),
        takes(0, 7),
        calls(1, Call::Enter, Done::At { epoch: 8 }),
        calls(1, Call::Look { number }, Done::Here { slot: 1 }),
        calls(1, write, Done::Written),
        ends(0, finished(1, 0)),
        calls(
            1,
            Call::Read { number, field: 0 },
            Done::Value { value: 21 }
        ),
        calls(
            1,
            Call::Read { number, field: 1 },
            Done::Value { value: 99 }
        ),
    ]?;
    follow(&rt, &mut machine, lines);
    Ok(())
}

#[test]
fn a_scan_visits_an_object_once_while_it_moves(rt: HostRuntime) -> Result<(), Fail> {
    let alloc = rt.alloc();
    let still = Done::Visit {
        number: object(1, 0),
        slot: 0,
    };
    let moving = Done::Visit {
        number: object(1, 64),
        slot: 1,
    };
    let mut machine = region(alloc, 2, 1, 128, LATER)?;
    begin_a_round(&rt, alloc, &mut machine, &[11], &[22])?;
    let lines = vec![in alloc;
        calls(0, Call::Advance, Done::Advanced { epoch: 8 }),
        calls(0, Call::Enter, Done::At { epoch: 8 }),
        starts(0, Call::Finish),
        takes(0, 4),
        calls(1, Call::Enter, Done::At { epoch: 8 }),
        calls(1, Call::Scan { coll: 0 }, Done::Begun),
        calls(1, Call::Next { scan: 1 }, still),
        calls(1, Call::Next { scan: 1 }, moving),
        calls(1, Call::Next { scan: 1 }, Done::End),
        ends(0, finished(1, 0)),
        calls(1, Call::Next { scan: 1 }, Done::End),
    ]?;
    follow(&rt, &mut machine, lines);
    Ok(())
}

#[test]
fn a_slot_is_used_again_once_it_is_ripe(rt: HostRuntime) -> Result<(), Fail> {
    let alloc = rt.alloc();
    let (removed, added) = (object(1, 0), object(2, 0));
    let read = Call::Read {
        number: added,
        field: 0,
    };
    let mut machine = region(alloc, 1, 1, 64, Opening::plain())?;
    let lines = vec![in alloc;
        calls(0, Call::Enter, Done::At { epoch: 2 }),
        calls(0, add(alloc, 0, &[7])?, Done::Made { slot: 0 }),
        calls(0, Call::Look { number: removed }, Done::Here { slot: 0 }),
        calls(0, Call::Remove { number: removed }, Done::First),
        calls(0, Call::Leave, Done::Out),
        calls(0, Call::Advance, Done::Advanced { epoch: 3 }),
        calls(0, Call::Advance, Done::Advanced { epoch: 4 }),
        calls(0, Call::Enter, Done::At { epoch: 4 }),
        calls(0, add(alloc, 0, &[9])?, Done::Made { slot: 1 }),
        calls(0, Call::Leave, Done::Out),
        calls(0, Call::Advance, Done::Advanced { epoch: 5 }),
        calls(0, Call::Enter, Done::At { epoch: 5 }),
        calls(0, add(alloc, 0, &[8])?, Done::Made { slot: 0 }),
        calls(0, Call::Look { number: removed }, Done::Null),
        calls(0, Call::Look { number: added }, Done::Here { slot: 0 }),
        calls(0, read, Done::Value { value: 8 }),
    ]?;
    follow(&rt, &mut machine, lines);
    Ok(())
}

#[test]
fn an_add_is_full_once_each_slot_is_taken(rt: HostRuntime) -> Result<(), Fail> {
    let alloc = rt.alloc();
    let mut machine = region(alloc, 1, 1, 64, Opening::plain())?;
    let mut lines = vec![in alloc; calls(0, Call::Enter, Done::At { epoch: 2 })]?;
    for slot in 0..64 {
        lines.push(calls(0, add(alloc, 0, &[1])?, Done::Made { slot }))?;
    }
    let full = Done::Full { full: Cause::Slots };
    lines.push(calls(0, add(alloc, 0, &[1])?, full))?;
    follow(&rt, &mut machine, lines);
    Ok(())
}

#[test]
fn two_adds_at_once_take_two_slots(rt: HostRuntime) -> Result<(), Fail> {
    let alloc = rt.alloc();
    let mut machine = region(alloc, 2, 1, 64, Opening::plain())?;
    let lines = vec![in alloc;
        calls(0, Call::Enter, Done::At { epoch: 2 }),
        calls(1, Call::Enter, Done::At { epoch: 2 }),
        starts(0, add(alloc, 0, &[1])?),
        starts(1, add(alloc, 0, &[2])?),
        ends(0, Done::Made { slot: 0 }),
        ends(1, Done::Made { slot: 1 }),
    ]?;
    follow(&rt, &mut machine, lines);
    Ok(())
}
