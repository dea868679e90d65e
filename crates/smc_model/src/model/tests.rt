ghost use Rattle.smc_model.specs.World.{HasField};

use super::*;
use crate::Cause;

fn numbered(entry: u32) -> Number {
    Number {
        incarnation: 1,
        entry,
        coll: 0,
    }
}

fn adds(alloc: Global, number: Number, words: &[u64]) -> Result<Event, NoMemory> {
    Ok(Event::Add {
        number,
        coll: 0,
        words: Record::of(alloc, words)?,
    })
}

#[test]
fn an_object_is_added_once(rt: HostRuntime) -> Result<(), NoMemory> {
    let mut model = Model::new(rt.alloc());
    let event = adds(rt.alloc(), numbered(0), &[5, 7])?;
    assert_eq!(rt; model.apply(&event)?, Reply::Fits);
    assert_eq!(rt; model.apply(&event)?, Reply::Unfit);
    assert_eq!(rt; model.count(0), 1);
    assert_eq!(rt; model.count(1), 0);
    let elsewhere = Number {
        coll: 1,
        ..numbered(0)
    };
    assert_eq!(rt;
        model.apply(&adds(rt.alloc(), elsewhere, &[])?)?,
        Reply::Unfit
    );
    Ok(())
}

fn looks(number: Number, here: bool) -> Event {
    Event::Look { number, here }
}

fn removes(number: Number, first: bool) -> Event {
    Event::Remove { number, first }
}

#[test]
fn an_object_is_here_until_it_is_removed(rt: HostRuntime) -> Result<(), NoMemory> {
    let mut model = Model::new(rt.alloc());
    let number = numbered(3);
    let steps = [
        (looks(number, true), Reply::Unfit),
        (looks(number, false), Reply::Fits),
        (removes(number, false), Reply::Unfit),
        (adds(rt.alloc(), number, &[5])?, Reply::Fits),
        (looks(number, false), Reply::Unfit),
        (looks(number, true), Reply::Fits),
        (removes(number, false), Reply::Unfit),
        (removes(number, true), Reply::Fits),
        (removes(number, true), Reply::Unfit),
        (removes(number, false), Reply::Fits),
        (looks(number, false), Reply::Fits),
        (adds(rt.alloc(), number, &[5])?, Reply::Unfit),
    ];
    for (event, reply) in &steps {
        assert_eq!(rt; model.apply(event)?, *reply, "{event:?}");
    }
    assert_eq!(rt; model.count(0), 0);
    Ok(())
}

#[test]
fn words_last_beyond_a_removal(rt: HostRuntime) -> Result<(), NoMemory> {
    let mut model = Model::new(rt.alloc());
    let number = numbered(3);
    let read = |field, value| Event::Read {
        number,
        field,
        value,
    };
    let write = |field, value| Event::Write {
        number,
        field,
        value,
    };
    let steps = [
        (read(0, 5), Reply::Unfit),
        (write(0, 5), Reply::Unfit),
        (adds(rt.alloc(), number, &[5, 7])?, Reply::Fits),
        (read(1, 7), Reply::Fits),
        (read(1, 5), Reply::Unfit),
        (read(2, 0), Reply::Unfit),
        (write(2, 0), Reply::Unfit),
        (write(0, u64::MAX), Reply::Unfit),
        (write(0, u64::MAX - 1), Reply::Fits),
        (
            Event::Remove {
                number,
                first: true,
            },
            Reply::Fits,
        ),
        (read(0, u64::MAX - 1), Reply::Fits),
        (write(0, 4), Reply::Fits),
        (read(0, 4), Reply::Fits),
        (read(1, 7), Reply::Fits),
    ];
    for (event, reply) in &steps {
        assert_eq!(rt; model.apply(event)?, *reply, "{event:?}");
    }
    Ok(())
}

#[test]
fn every_other_event_fits(rt: HostRuntime) -> Result<(), NoMemory> {
    let mut model = Model::new(rt.alloc());
    let events = [
        Event::Enter,
        Event::Begin { scan: 7, coll: 3 },
        Event::Visit {
            scan: 7,
            number: numbered(0),
        },
        Event::End { scan: 7 },
        Event::Leave,
        Event::Told { pass: 2, length: 9 },
        Event::Refused {
            coll: 3,
            full: Cause::Entries,
        },
    ];
    for event in &events {
        assert_eq!(rt; model.apply(event)?, Reply::Fits, "{event:?}");
    }
    Ok(())
}

// Adds an object of two words, the second the largest that there is.
fn add_largest(alloc: Global, model: &mut Model, entry: u32) -> Result<Reply, NoMemory>
    requires { HasField model.old 0 1 }
    ensures { HasField model.new 0 1 }
{
    let words = Record::of(alloc, &[1, u64::MAX])?;
    model.apply(&Event::Add {
        number: numbered(entry),
        coll: 0,
        words,
    })
}

#[test]
fn a_total_may_pass_a_word(rt: HostRuntime) -> Result<(), NoMemory> {
    let alloc = rt.alloc();
    let mut model = Model::new(alloc);
    assert_eq!(rt; model.total(0, 1), 0);
    assert_eq!(rt; add_largest(alloc, &mut model, 7)?, Reply::Fits);
    assert_eq!(rt; add_largest(alloc, &mut model, 3)?, Reply::Fits);
    assert_eq!(rt; model.total(0, 1), 36_893_488_147_419_103_230);
    Ok(())
}
