//! Scanning a collection: it takes the slots in rising order, and visits each object that it finds held at its place.
ghost use Rattle.std.specs.Prelude.{◌≡◌, ◌<◌, IsFalse};
ghost use Rattle.smc_core.specs.Scan.{scan_number, new_scan, scan_of, is_over, scan_offer, owner_seen, scan_change, next_offer, next_change};
ghost use Rattle.smc_automaton.specs.FitsPhase.{FitsScan};

use crate::look::passes;
use crate::op::{back, directory, load, section_of};
use crate::seen::is_scanned;
use crate::size::slots_of;
use crate::step::{ends, goes, tells};
use smc_core::{Change, Done, Kind, LookPhase, Offer, Phase, Scan, ScanPhase, Seeker, Word};
use smc_model::Event;
use smc_shape::Shape;
use smc_words::{ENTRIES, Number, PASSES};
use std::collections::LinkedList;

/// The number of the scan that a pass begins after so many others.
pub(crate) fn scan_number(pass: u32, begun: u32) -> u64
    ensures { result ≡ scan_number pass begun }
{
    u64::from(PASSES) * u64::from(begun) + u64::from(pass)
}

/// A scan that has begun on this collection.
pub(crate) fn new_scan(number: u64, coll: u8) -> Scan
    ensures { result ≡ new_scan number coll }
{
    Scan {
        number,
        coll,
        place: 0,
        ended: false,
    }
}

/// The scan with this number, if the section has begun it.
pub(crate) fn scan_of(scans: &LinkedList<Scan>, number: u64) -> Option<Scan>
    ensures { result ≡ scan_of scans.now number }
{
    for scan in scans {
        if scan.number == number {
            return Some(*scan);
        }
    }
    None
}

/// Whether a scan has no slot left.
pub(crate) fn is_over(shape: &Shape, begun: Scan) -> bool
    ensures is { result ≡ is_over shape.now begun }
    ensures left { IsFalse result → begun.place < ENTRIES }
{
    begun.ended || begun.place >= slots_of(shape, begun.coll)
}

/// The step of a scan on its way to its next object.
pub(crate) fn scan_offer(pass: u32, next: ScanPhase) -> Offer
    ensures { result ≡ scan_offer pass next }
{
    match next {
        ScanPhase::Directory { coll, slot, .. } => load(Kind::LoadDirectory, directory(coll, slot)),
        ScanPhase::Back { coll, slot, .. } => load(Kind::LoadBack, back(coll, slot)),
        ScanPhase::End { .. } => load(Kind::LoadSection, section_of(pass)),
    }
}

/// The owner of the slot is looked up; a slot without one is passed.
fn owner_seen(shape: &Shape, scan: u64, coll: u8, slot: u32, owner: Option<Number>) -> Change
    requires { slot < ENTRIES }
    ensures { result ≡ owner_seen shape.now scan coll slot owner }
{
    match owner {
        None => goes(passes(shape, scan, coll, slot)),
        Some(number) => {
            let seeker = Seeker::Scan { scan, coll, slot };
            goes(Phase::Look(LookPhase::Load { seeker, number }))
        }
    }
}

/// What such a step changes.
pub(crate) fn scan_change(shape: &Shape, next: ScanPhase, seen: Word) -> Change
    requires { FitsScan next }
    ensures { result ≡ scan_change shape.now next seen }
{
    match next {
        ScanPhase::Directory { scan, coll, slot } => {
            if is_scanned(seen.dir()) {
                goes(Phase::Scan(ScanPhase::Back { scan, coll, slot }))
            } else {
                goes(passes(shape, scan, coll, slot))
            }
        }
        ScanPhase::Back { scan, coll, slot } => owner_seen(shape, scan, coll, slot, seen.back()),
        ScanPhase::End { scan } => tells(Event::End { scan }, Done::End),
    }
}

/// The first step of going on with a scan: the directory word of its place, or, where no slot is left, the own word.
pub(crate) fn next_offer(shape: &Shape, pass: u32, begun: Scan) -> Offer
    ensures { result ≡ next_offer shape.now pass begun }
{
    if is_over(shape, begun) {
        load(Kind::LoadSection, section_of(pass))
    } else {
        load(Kind::LoadDirectory, directory(begun.coll, begun.place))
    }
}

/// What that step changes. A scan that has ended ends again, without an event.
pub(crate) fn next_change(shape: &Shape, begun: Scan, seen: Word) -> Change
    ensures { result ≡ next_change shape.now begun seen }
{
    if begun.ended {
        ends(Done::End)
    } else if is_over(shape, begun) {
        scan_change(shape, ScanPhase::End { scan: begun.number }, seen)
    } else {
        let next = ScanPhase::Directory {
            scan: begun.number,
            coll: begun.coll,
            slot: begun.place,
        };
        scan_change(shape, next, seen)
    }
}
