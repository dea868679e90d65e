//! Looking an object up: whether it is present, and in which slot it is held.
ghost use Rattle.std.specs.Prelude.{◌≡◌, ◌<◌};
ghost use Rattle.smc_core.specs.Look.{look_offer, finds, visits, passes, look_change, looking_change, seeker_of, sought_number};
ghost use Rattle.smc_automaton.specs.FitsPhase.{FitsLook, FitsSeeker};

use crate::copy::copy_offer;
use crate::find::look_finding;
use crate::op::{entry_of, exchange, frozen, load, present};
use crate::size::slots_of;
use crate::step::{goes, tells};
use smc_core::{
    Change, Done, Finding, Held, Kind, LookPhase, Offer, Phase, ScanPhase, Seeker, Word,
};
use smc_model::Event;
use smc_shape::Shape;
use smc_words::{ENTRIES, Number};

/// The step of a look-up.
pub(crate) fn look_offer(next: LookPhase) -> Offer
    ensures { result ≡ look_offer next }
{
    match next {
        LookPhase::Load { number, .. } => load(Kind::LookUp, entry_of(number)),
        LookPhase::Abandon { number, slot, .. } => exchange(
            Kind::Unfreeze,
            entry_of(number),
            frozen(number, slot),
            present(number, slot),
        ),
        LookPhase::Help {
            number,
            slot,
            copy,
            ..
        } => copy_offer(number, slot, copy),
    }
}

/// A caller's look-up ends with the object in this slot, which the section holds from now on.
fn finds(number: Number, slot: u32) -> Change
    ensures { result ≡ finds number slot }
{
    Change {
        event: Some(Event::Look { number, here: true }),
        answer: Some(Done::Here { slot }),
        holds: Some(Held { number, slot }),
        phase: Phase::Idle,
    }
}

/// A scan's look-up ends with a visit: the object is held at the very slot that the scan is at.
fn visits(scan: u64, number: Number, slot: u32) -> Change
    ensures { result ≡ visits scan number slot }
{
    Change {
        event: Some(Event::Visit { scan, number }),
        answer: Some(Done::Visit { number, slot }),
        holds: Some(Held { number, slot }),
        phase: Phase::Idle,
    }
}

/// A scan passes a slot: it goes on with the next one, or to its end.
pub(crate) fn passes(shape: &Shape, scan: u64, coll: u8, slot: u32) -> Phase
    requires { slot < ENTRIES }
    ensures { result ≡ passes shape.now scan coll slot }
{
    if slot + 1 < slots_of(shape, coll) {
        Phase::Scan(ScanPhase::Directory {
            scan,
            coll,
            slot: slot + 1,
        })
    } else {
        Phase::Scan(ScanPhase::End { scan })
    }
}

/// Who looks in this phase.
pub(crate) fn seeker_of(next: LookPhase) -> Seeker
    requires { FitsLook next }
    ensures is { result ≡ seeker_of next }
    ensures fits { FitsSeeker result }
{
    match next {
        LookPhase::Load { seeker, .. }
        | LookPhase::Abandon { seeker, .. }
        | LookPhase::Help { seeker, .. } => seeker,
    }
}

/// The number that is looked up in it.
fn sought_number(next: LookPhase) -> Number
    ensures { result ≡ sought_number next }
{
    match next {
        LookPhase::Load { number, .. }
        | LookPhase::Abandon { number, .. }
        | LookPhase::Help { number, .. } => number,
    }
}

/// How the look-up goes on for a scan at this slot.
fn look_change_scan(
    shape: &Shape,
    scan: u64,
    coll: u8,
    place: u32,
    number: Number,
    found: Finding,
) -> Change
    requires { place < ENTRIES }
    ensures { result ≡ look_change shape.now (Seeker.Scan scan coll place) number found }
{
    let seeker = Seeker::Scan {
        scan,
        coll,
        slot: place,
    };
    match found {
        Finding::Absent => goes(passes(shape, scan, coll, place)),
        Finding::Stays { slot } => {
            if slot == place {
                visits(scan, number, slot)
            } else {
                goes(passes(shape, scan, coll, place))
            }
        }
        Finding::Abandons { slot } => goes(Phase::Look(LookPhase::Abandon {
            seeker,
            number,
            slot,
        })),
        Finding::Helps { slot, copy } => {
            goes(Phase::Look(LookPhase::Help {
                seeker,
                number,
                slot,
                copy,
            }))
        }
    }
}

/// How the look-up goes on, by who looks.
fn look_change(shape: &Shape, seeker: Seeker, number: Number, found: Finding) -> Change
    requires { FitsSeeker seeker }
    ensures { result ≡ look_change shape.now seeker number found }
{
    match seeker {
        Seeker::Caller => match found {
            Finding::Absent => tells(
                Event::Look {
                    number,
                    here: false,
                },
                Done::Null,
            ),
            Finding::Stays { slot } => finds(number, slot),
            Finding::Abandons { slot } => {
                goes(Phase::Look(LookPhase::Abandon {
                    seeker,
                    number,
                    slot,
                }))
            }
            Finding::Helps { slot, copy } => {
                goes(Phase::Look(LookPhase::Help {
                    seeker,
                    number,
                    slot,
                    copy,
                }))
            }
        },
        Seeker::Scan { scan, coll, slot } => {
            look_change_scan(shape, scan, coll, slot, number, found)
        }
    }
}

/// What a step of a look-up changes.
pub(crate) fn looking_change(shape: &Shape, calm: bool, next: LookPhase, seen: Word) -> Change
    requires { FitsLook next }
    ensures { result ≡ looking_change shape.now calm next seen }
{
    let found = look_finding(shape, calm, next, seen);
    look_change(shape, seeker_of(next), sought_number(next), found)
}
