//! What a step makes of the scans of a section.
ghost use Rattle.std.specs.Prelude.{◌≡◌, ◌==◌, ◌+◌, ◌<◌, ◌++◌, ◌^◌, length, position, take, drop};
ghost use Rattle.std.specs.Option.{option_to_list};
ghost use Rattle.smc_core.specs.Scan.{passed, ended};
ghost use Rattle.smc_automaton.specs.Effects.{scans_by};
ghost use Rattle.smc_machine.specs.Added.{scan_begun, first_passed, first_ended};

use crate::grow::put_behind;
use smc_automaton::ScanEffect;
use smc_core::Scan;
use std::collections::LinkedList;

/// Does to the scans of a section what a step makes of them. `begun` has the scan that it begins.
pub(crate) fn change_scans(
    scans: &mut LinkedList<Scan>,
    effect: ScanEffect,
    begun: LinkedList<Scan>,
)
    requires begun { begun ≡ option_to_list (scan_begun effect) }
    requires room { length scans.old + length begun < 2 ^ 63 }
    ensures { scans.new ≡ scans_by effect scans.old }
{
    match effect {
        ScanEffect::Stay => {}
        ScanEffect::Begin(_) => put_behind(scans, begun),
        ScanEffect::Pass { scan, place } => pass(scans, scan, place),
        ScanEffect::End { scan } => end(scans, scan),
        ScanEffect::Clear => scans.clear(),
    }
}

/// The place of a scan among those of the section.
fn found(scans: &LinkedList<Scan>, number: u64) -> Option<usize>
    ensures { result ≡ position (λ scan. scan.number == number) scans.now }
{
    scans.iter().position(|scan| scan.number == number)
}

/// The scan has passed the slots below `place`.
fn pass(scans: &mut LinkedList<Scan>, number: u64, place: u32)
    ensures { scans.new ≡ passed scans.old number place }
{
    let _ = scans.len();
    let Some(at) = found(scans, number) else {
        return;
    };
    match scans.split_off(at) {
        Ok(mut back) => {
            pass_first(&mut back, place);
            put_behind(scans, back);
        }
        Err(_) => unreachable!(),
    }
}

/// The scan has ended.
fn end(scans: &mut LinkedList<Scan>, number: u64)
    ensures { scans.new ≡ ended scans.old number }
{
    let _ = scans.len();
    let Some(at) = found(scans, number) else {
        return;
    };
    match scans.split_off(at) {
        Ok(mut back) => {
            end_first(&mut back);
            put_behind(scans, back);
        }
        Err(_) => unreachable!(),
    }
}

fn pass_first(scans: &mut LinkedList<Scan>, place: u32)
    ensures { scans.new ≡ first_passed scans.old place }
{
    if let Some(first) = scans.front_mut() {
        first.place = place;
    }
}

fn end_first(scans: &mut LinkedList<Scan>)
    ensures { scans.new ≡ first_ended scans.old }
{
    if let Some(first) = scans.front_mut() {
        first.ended = true;
    }
}
