//! What a step makes of where its pass stands.
ghost use Rattle.std.specs.Prelude.{◌≡◌, ◌+◌, ◌<◌, ◌^◌, false, OnOk, OnErr, length};
ghost use Rattle.std.specs.Option.{option_to_list};
ghost use Rattle.smc_core.specs.Local.{held_after, words_after, stand_after};
ghost use Rattle.smc_automaton.specs.Fits.{FitsStand};
ghost use Rattle.smc_machine.specs.Added.{words_added, scan_begun, is_leave};
ghost use Rattle.smc_machine.specs.Faults.{is_spent};

use crate::event::copy_words;
use crate::grow::{beside, put_before};
use crate::scans::change_scans;
use smc_automaton::{
    ScanEffect, begun_after, noted_after, round_after, scan_effect, section_after,
};
use smc_core::{Call, Change, Choice, Held, Scan, Stand, Word};
use smc_model::Record;
use smc_shape::Shape;
use smc_words::NoMemory;
use std::alloc::Global;
use std::collections::LinkedList;

/// Does to where a pass stands what a step makes of it. Where memory is refused nothing changes.
pub(crate) fn move_stand(
    alloc: Global,
    shape: &Shape,
    pass: u32,
    stand: &mut Stand,
    choice: &Choice,
    seen: Word,
    made: &Change,
) -> Result<(), NoMemory>
    requires fits { FitsStand shape.now stand.old }
    requires counts { is_spent stand.old choice.now ≡ false }
    ensures done { OnOk result (stand.new ≡
        stand_after shape.now pass stand.old choice.now seen made.now) }
    ensures kept { OnErr result (stand.new ≡ stand.old) }
{
    let section = section_after(stand, choice, seen);
    let round = round_after(stand, choice, seen);
    let effect = scan_effect(shape, pass, stand, choice, seen);
    let words = copy_words(alloc, choice)?;
    let begun = beside(alloc, &stand.scans, scan_begun(effect))?;
    let front = beside(alloc, &stand.held, made.holds)?;

    // From here on nothing takes memory.
    change_scans(&mut stand.scans, effect, begun);
    hold(&mut stand.held, choice, made.holds, front);
    replace(&mut stand.words, choice, words);
    stand.begun = begun_after(stand.begun, choice);
    stand.noted = noted_after(stand.noted, choice);
    stand.section = section;
    stand.round = round;
    stand.phase = made.phase;
    Ok(())
}

/// The scan that a step begins.
fn scan_begun(effect: ScanEffect) -> Option<Scan>
    ensures { result ≡ scan_begun effect }
{
    match effect {
        ScanEffect::Begin(scan) => Some(scan),
        _ => None,
    }
}

/// Whether the choice ends the section.
fn is_leave(choice: &Choice) -> bool
    ensures { result ≡ is_leave choice.now }
{
    matches!(choice, Choice::Start(Call::Leave))
}

/// What the section holds: nothing once it has ended, else `front` before the others.
fn hold(held: &mut LinkedList<Held>, choice: &Choice, holds: Option<Held>, front: LinkedList<Held>)
    requires front { front ≡ option_to_list holds }
    requires room { length held.old + length front < 2 ^ 63 }
    ensures { held.new ≡ held_after held.old choice.now holds }
{
    if is_leave(choice) {
        held.clear();
    } else {
        put_before(held, front);
    }
}

/// The words of the latest add.
fn replace(words: &mut Record, choice: &Choice, added: Option<Record>)
    requires { added ≡ words_added choice.now }
    ensures { words.new ≡ words_after words.old choice.now }
{
    if let Some(added) = added {
        *words = added;
    }
}
