//! Copies of what a step tells and of what an add is to write, whose memory is taken before the step changes anything.
ghost use Rattle.std.specs.Prelude.{◌≡◌, IfOk};
ghost use Rattle.smc_machine.specs.Added.{words_added};

use smc_core::{Call, Choice};
use smc_model::{Event, Record};
use smc_words::NoMemory;
use std::alloc::Global;

/// A copy of a record.
fn copy_record(alloc: Global, words: &Record) -> Result<Record, NoMemory>
    ensures { IfOk result (λ copy. copy ≡ words.now) }
{
    Record::of(alloc, words.words())
}

/// A copy of an event.
fn copy_event(alloc: Global, event: &Event) -> Result<Event, NoMemory>
    ensures { IfOk result (λ copy. copy ≡ event.now) }
{
    Ok(match *event {
        Event::Add {
            number,
            coll,
            ref words,
        } => Event::Add {
            number,
            coll,
            words: copy_record(alloc, words)?,
        },
        Event::Look { number, here } => Event::Look { number, here },
        Event::Read {
            number,
            field,
            value,
        } => Event::Read {
            number,
            field,
            value,
        },
        Event::Write {
            number,
            field,
            value,
        } => Event::Write {
            number,
            field,
            value,
        },
        Event::Remove { number, first } => Event::Remove { number, first },
        Event::Begin { scan, coll } => Event::Begin { scan, coll },
        Event::Visit { scan, number } => Event::Visit { scan, number },
        Event::End { scan } => Event::End { scan },
        Event::Enter => Event::Enter,
        Event::Leave => Event::Leave,
        Event::Told { pass, length } => Event::Told { pass, length },
        Event::Refused { coll, full } => Event::Refused { coll, full },
    })
}

/// A copy of what a step tells, if it tells something.
pub(crate) fn copy_told(alloc: Global, event: &Option<Event>) -> Result<Option<Event>, NoMemory>
    ensures { IfOk result (λ copy. copy ≡ event.now) }
{
    match event {
        Some(event) => Ok(Some(copy_event(alloc, event)?)),
        None => Ok(None),
    }
}

/// A copy of the words that an add is to write, where the choice starts one.
pub(crate) fn copy_words(alloc: Global, choice: &Choice) -> Result<Option<Record>, NoMemory>
    ensures { IfOk result (λ words. words ≡ words_added choice.now) }
{
    match choice {
        Choice::Start(Call::Add { words, .. }) => Ok(Some(copy_record(alloc, words)?)),
        _ => Ok(None),
    }
}
