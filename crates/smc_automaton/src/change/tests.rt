use super::*;
use smc_core::{AddPhase, Done, Section};
use smc_model::{Event, Record};
use smc_shape::CollShape;
use smc_words::Number;
use std::collections::LinkedList;
use std::test::Fail;

#[test]
fn the_last_step_of_an_add_copies_its_words(rt: HostRuntime) -> Result<(), Fail> {
    let alloc = rt.alloc();
    let coll = CollShape {
        width: 2,
        slots: 64,
    };
    let shape = Shape::new(1, vec![in alloc; coll]?)?;
    let number = Number {
        incarnation: 1,
        entry: 3,
        coll: 0,
    };
    let stand = Stand {
        section: Section::Inside {
            epoch: 2,
            calm: true,
        },
        phase: Phase::Add(AddPhase::StoreLive { slot: 5, number }),
        held: LinkedList::new(alloc),
        scans: LinkedList::new(alloc),
        begun: 0,
        noted: 0,
        words: Record::of(alloc, &[7, 8])?,
        round: None,
    };
    let made = changed(alloc, &shape, 0, &stand, &Choice::Go, 0, Word::Plain(0))?;
    assert_eq!(rt; made.answer, Some(Done::Made { slot: 5 }));
    let copied = match &made.event {
        Some(Event::Add { words, .. }) => words.words(),
        _ => &[],
    };
    assert_eq!(rt; copied, [7, 8].as_slice());
    Ok(())
}
