//! What the first step of a call changes.
ghost use Rattle.std.specs.Prelude.{◌≡◌, ◌==◌, if◌then◌else◌};
ghost use Rattle.smc_core.specs.Change.{advance_next, start_change, remove_started, next_started, finish_owned, cancel_owned, look_started};
ghost use Rattle.smc_core.specs.Step.{goes, ends};
ghost use Rattle.smc_automaton.specs.Fits.{FitsOwned, FitsStand};

use crate::advance::advance_next;
use crate::ask::held_slot;
use crate::begin::round_seen;
use crate::cancel::cancel_change;
use crate::claim::slot_seen;
use crate::count::{counting, first_count, survey_change};
use crate::finish::finish_started;
use crate::look::looking_change;
use crate::remove::mark_seen;
use crate::scan::{next_change, scan_number, scan_of};
use crate::section::epoch_of;
use crate::size::has_entry;
use crate::step::{ends, goes, tells};
use smc_core::{
    Call, CancelPhase, Change, Done, LAST_EPOCH, LookPhase, Owned, Phase, Scan, Seeker, Stand,
    State, Word,
};
use smc_model::Event;
use smc_shape::Shape;
use smc_words::Number;

/// What the first step of a remove changes, by the slot in which the object is held.
fn remove_started(number: Number, held: Option<u32>, seen: State) -> Change
    ensures { result ≡ remove_started number held seen }
{
    match held {
        None => goes(Phase::Idle),
        Some(slot) => mark_seen(number, slot, seen),
    }
}

/// What the first step of going on with a scan changes.
fn next_started(shape: &Shape, begun: Option<Scan>, seen: Word) -> Change
    ensures { result ≡ next_started shape.now begun seen }
{
    match begun {
        None => goes(Phase::Idle),
        Some(scan) => next_change(shape, scan, seen),
    }
}

/// What the first step of a finish changes.
fn finish_owned(shape: &Shape, epoch: u64, owned: Option<Owned>, seen: Word) -> Change
    requires { FitsOwned owned }
    ensures { result ≡ finish_owned shape.now epoch owned seen }
{
    match owned {
        None => goes(Phase::Idle),
        Some(round) => finish_started(shape, epoch, round, seen),
    }
}

/// What the first step of a cancel changes.
fn cancel_owned(shape: &Shape, owned: Option<Owned>, seen: Word) -> Change
    ensures { result ≡ cancel_owned shape.now owned seen }
{
    match owned {
        None => goes(Phase::Idle),
        Some(round) => {
            let first = CancelPhase::Directory {
                coll: round.coll,
                slot: 0,
            };
            cancel_change(shape, first, seen)
        }
    }
}

/// What the first step of looking a number up changes.
fn look_started(shape: &Shape, calm: bool, number: Number, seen: Word) -> Change
    ensures { result ≡ look_started shape.now calm number seen }
{
    if has_entry(shape, number) {
        let first = LookPhase::Load {
            seeker: Seeker::Caller,
            number,
        };
        looking_change(shape, calm, first, seen)
    } else {
        tells(
            Event::Look {
                number,
                here: false,
            },
            Done::Null,
        )
    }
}

/// What the first step of an advance changes: at the last epoch there is none to move on to.
fn advance_started(shape: &Shape, seen: u64) -> Change
    ensures { result ≡ (if seen == LAST_EPOCH then ends Done.Spent else goes (advance_next shape.now seen 0)) }
{
    if seen == LAST_EPOCH {
        ends(Done::Spent)
    } else {
        goes(advance_next(shape, seen, 0))
    }
}

/// What the first step of a call changes.
pub(crate) fn start_change(
    shape: &Shape,
    pass: u32,
    stand: &Stand,
    call: &Call,
    told: u64,
    seen: Word,
) -> Change
    requires { FitsStand shape.now stand.now }
    ensures { result ≡
        start_change shape.now pass stand.now stand.now.section call.now told seen }
{
    let section = stand.section;
    match call {
        Call::Enter => goes(Phase::Entering),
        Call::Leave => tells(Event::Leave, Done::Out),
        Call::Advance => advance_started(shape, seen.plain()),
        Call::Add { coll, from, .. } => {
            slot_seen(shape, epoch_of(section), *coll, *from, *from, 0, seen.dir())
        }
        Call::Look { number } => look_started(shape, section.is_calm(), *number, seen),
        Call::Read { number, field } => {
            let value = seen.plain();
            tells(
                Event::Read {
                    number: *number,
                    field: *field,
                    value,
                },
                Done::Value { value },
            )
        }
        Call::Write {
            number,
            field,
            value,
        } => tells(
            Event::Write {
                number: *number,
                field: *field,
                value: *value,
            },
            Done::Written,
        ),
        Call::Remove { number } => {
            remove_started(*number, held_slot(&stand.held, *number), seen.state())
        }
        Call::Scan { coll } => tells(
            Event::Begin {
                scan: scan_number(pass, stand.begun),
                coll: *coll,
            },
            Done::Begun,
        ),
        Call::Next { scan } => next_started(shape, scan_of(&stand.scans, *scan), seen),
        Call::Begin { coll } => round_seen(*coll, seen.round()),
        Call::Finish => finish_owned(shape, epoch_of(section), stand.round, seen),
        Call::Cancel => cancel_owned(shape, stand.round, seen),
        Call::Survey { coll } => survey_change(counting(shape, first_count(*coll), seen)),
        Call::Note => ends(Done::Noted { note: stand.noted }),
        Call::Learn { pass: other, .. } => {
            tells(
                Event::Told {
                    pass: *other,
                    length: told,
                },
                Done::Learned,
            )
        }
    }
}
