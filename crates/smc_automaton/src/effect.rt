//! What a step makes of the lists of a pass, as one change of a part.
ghost use Rattle.std.specs.Prelude.{◌≡◌, ℕ, List};
ghost use Rattle.smc_core.specs.Local.{next_after, scans_after, cursors_after};
ghost use Rattle.smc_core.specs.Scan.{scan_scans, look_scans};
ghost use Rattle.smc_automaton.specs.Effects.{scans_by, cursors_by};
ghost use Rattle.smc_automaton.specs.Fits.{FitsStand};
ghost use Rattle.smc_automaton.specs.FitsPhase.{FitsScan, FitsSeeker};

use crate::claim::next_round;
use crate::find::look_finding;
use crate::look::seeker_of;
use crate::scan::{is_over, new_scan, scan_number, scan_of};
use crate::seen::is_scanned;
use crate::size::slots_of;
use smc_core::{AddPhase, Call, Choice, Finding, Phase, Scan, ScanPhase, Seeker, Stand, Word};
use smc_shape::Shape;

/// What a step makes of the scans of a section.
#[derive(Clone, Copy)]
pub enum ScanEffect {
    /// They stay as they are.
    Stay,
    /// This one has begun, and stands behind the others.
    Begin(Scan),
    /// The scan with this number has passed the slots below `place`.
    Pass { scan: u64, place: u32 },
    /// The scan with this number has ended.
    End { scan: u64 },
    /// The section has ended, and its scans with it.
    Clear,
}

/// The cursor of the collection is now this one.
#[derive(Clone, Copy)]
pub struct Cursor {
    pub coll: u8,
    pub slot: u32,
}

/// What a step of a scan on its way makes of the section's scans: a slot without an object to look up is passed.
fn scan_step_effect(next: ScanPhase, seen: Word) -> ScanEffect
    requires { FitsScan next }
    ensures { (scans : List Scan) → scans_by result scans ≡ scan_scans scans next seen }
{
    match next {
        ScanPhase::Directory { scan, slot, .. } => {
            if is_scanned(seen.dir()) {
                ScanEffect::Stay
            } else {
                ScanEffect::Pass {
                    scan,
                    place: slot + 1,
                }
            }
        }
        ScanPhase::Back { scan, slot, .. } => match seen.back() {
            None => ScanEffect::Pass {
                scan,
                place: slot + 1,
            },
            Some(_) => ScanEffect::Stay,
        },
        ScanPhase::End { scan } => ScanEffect::End { scan },
    }
}

/// What a look-up's step makes of them: a slot is passed where its look-up is decided.
fn look_effect(seeker: Seeker, found: Finding) -> ScanEffect
    requires { FitsSeeker seeker }
    ensures { (scans : List Scan) → scans_by result scans ≡ look_scans scans seeker found }
{
    match seeker {
        Seeker::Caller => ScanEffect::Stay,
        Seeker::Scan { scan, slot, .. } => match found {
            Finding::Absent | Finding::Stays { .. } => ScanEffect::Pass {
                scan,
                place: slot + 1,
            },
            Finding::Abandons { .. } | Finding::Helps { .. } => ScanEffect::Stay,
        },
    }
}

/// What the first step of going on with a scan makes of them.
fn next_effect(shape: &Shape, begun: Option<Scan>, seen: Word) -> ScanEffect
    ensures { (scans : List Scan) → scans_by result scans ≡ next_after shape.now scans begun seen }
{
    match begun {
        None => ScanEffect::Stay,
        Some(scan) => {
            if scan.ended {
                ScanEffect::Stay
            } else if is_over(shape, scan) {
                ScanEffect::End { scan: scan.number }
            } else {
                let next = ScanPhase::Directory {
                    scan: scan.number,
                    coll: scan.coll,
                    slot: scan.place,
                };
                scan_step_effect(next, seen)
            }
        }
    }
}

/// What the step of this choice makes of the section's scans.
pub fn scan_effect(
    shape: &Shape,
    pass: u32,
    stand: &Stand,
    choice: &Choice,
    seen: Word,
) -> ScanEffect
    requires fits { FitsStand shape.now stand.now }
    ensures { scans_by result stand.now.scans ≡
        scans_after shape.now pass stand.now stand.now.section stand.now.phase choice.now seen }
{
    match choice {
        Choice::Go => match stand.phase {
            Phase::Scan(next) => scan_step_effect(next, seen),
            Phase::Look(next) => {
                let calm = stand.section.is_calm();
                look_effect(seeker_of(next), look_finding(shape, calm, next, seen))
            }
            _ => ScanEffect::Stay,
        },
        Choice::Start(Call::Scan { coll }) => {
            ScanEffect::Begin(new_scan(scan_number(pass, stand.begun), *coll))
        }
        Choice::Start(Call::Next { scan }) => {
            next_effect(shape, scan_of(&stand.scans, *scan), seen)
        }
        Choice::Start(Call::Leave) => ScanEffect::Clear,
        Choice::Start(_) => ScanEffect::Stay,
    }
}

/// The cursor that the step of this choice moves, if it does.
pub fn cursor_effect(shape: &Shape, stand: &Stand, choice: &Choice) -> Option<Cursor>
    ensures { (cursors : List ℕ) → cursors_by result cursors ≡
        cursors_after shape.now cursors stand.now.phase choice.now }
{
    match choice {
        Choice::Go => match stand.phase {
            Phase::Add(AddPhase::StoreLive { slot, number }) => Some(Cursor {
                coll: number.coll,
                slot: next_round(slots_of(shape, number.coll), slot),
            }),
            _ => None,
        },
        Choice::Start(_) => None,
    }
}
