ghost use Rattle.std.specs.Prelude.{◌≡◌};
ghost use Rattle.smc_schedule.specs.Known.{known_as};
ghost use Rattle.smc_play.specs.Begun.{begun_of, number_of, added, looked, read, written, removed, next};

use smc_core::{Call, Choice};
use smc_model::Record;
use smc_schedule::{Known, Name, Names, StartCall, Verb};
use smc_words::Number;

/// A call in progress, as its line has it.
#[derive(Debug, Drop)]
pub struct Progress {
    pub verb: Verb,
    /// The name that an add gives.
    pub name: Option<Name>,
}

/// A call that a line begins: how it is named, and the choice of its first step.
#[derive(Drop)]
pub struct Begun {
    pub progress: Progress,
    pub choice: Choice,
}

/// The collection of a schedule.
const COLL: u8 = 0;

fn plain(verb: Verb, call: Call) -> Begun
    ensures { result ≡ record { progress = record { verb = verb; name = None }; choice = Choice.Start call } }
{
    Begun {
        progress: Progress { verb, name: None },
        choice: Choice::Start(call),
    }
}

/// The object that a name stands for, once its add has made one.
fn number_of(names: &Names, name: &Name) -> Option<Number>
    ensures { result ≡ number_of (known_as names.now name.now) }
{
    match names.get(name.as_str()) {
        Some(Known::Object(number)) => Some(number),
        _ => None,
    }
}

fn added(names: &Names, name: Name, from: u32, words: Record) -> Option<Begun>
    ensures { result ≡ added (known_as names.now name) name from words }
{
    match names.get(name.as_str()) {
        Some(_) => None,
        None => Some(Begun {
            progress: Progress {
                verb: Verb::Add,
                name: Some(name),
            },
            choice: Choice::Start(Call::Add {
                coll: COLL,
                from,
                words,
            }),
        }),
    }
}

fn looked(number: Option<Number>) -> Option<Begun>
    ensures { result ≡ looked number }
{
    match number {
        Some(number) => Some(plain(Verb::Look, Call::Look { number })),
        None => None,
    }
}

fn read(number: Option<Number>, field: u32) -> Option<Begun>
    ensures { result ≡ read number field }
{
    match number {
        Some(number) => Some(plain(Verb::Read, Call::Read { number, field })),
        None => None,
    }
}

fn written(number: Option<Number>, field: u32, value: u64) -> Option<Begun>
    ensures { result ≡ written number field value }
{
    match number {
        Some(number) => {
            let call = Call::Write {
                number,
                field,
                value,
            };
            Some(plain(Verb::Write, call))
        }
        None => None,
    }
}

fn removed(number: Option<Number>) -> Option<Begun>
    ensures { result ≡ removed number }
{
    match number {
        Some(number) => Some(plain(Verb::Remove, Call::Remove { number })),
        None => None,
    }
}

fn next(scan: Option<u64>) -> Option<Begun>
    ensures { result ≡ next scan }
{
    match scan {
        Some(scan) => Some(plain(Verb::Next, Call::Next { scan })),
        None => None,
    }
}

/// What a line begins, where its names may be used: a name of an add was not given yet, and another one stands for an
/// object. `scan` is the latest scan of the pass's section.
pub fn begun_of(names: &Names, scan: Option<u64>, call: StartCall) -> Option<Begun>
    ensures { result ≡ begun_of names.now scan call }
{
    match call {
        StartCall::Enter => Some(plain(Verb::Enter, Call::Enter)),
        StartCall::Leave => Some(plain(Verb::Leave, Call::Leave)),
        StartCall::Advance => Some(plain(Verb::Advance, Call::Advance)),
        StartCall::Add { name, from, words } => added(names, name, from, words),
        StartCall::Look { name } => looked(number_of(names, &name)),
        StartCall::Read { name, field } => read(number_of(names, &name), field),
        StartCall::Write { name, field, value } => written(number_of(names, &name), field, value),
        StartCall::Remove { name } => removed(number_of(names, &name)),
        StartCall::Scan => Some(plain(Verb::Scan, Call::Scan { coll: COLL })),
        StartCall::Next => next(scan),
        StartCall::Begin => Some(plain(Verb::Begin, Call::Begin { coll: COLL })),
        StartCall::Finish => Some(plain(Verb::Finish, Call::Finish)),
        StartCall::Cancel => Some(plain(Verb::Cancel, Call::Cancel)),
    }
}
