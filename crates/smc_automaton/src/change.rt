//! What a step changes in its pass, by the call and by the word that the step was shown.
ghost use Rattle.std.specs.Prelude.{◌≡◌, IfOk, IfErr};
ghost use Rattle.smc_core.specs.Change.{change, go_change};
ghost use Rattle.smc_automaton.specs.Effects.{EndsAdd};
ghost use Rattle.smc_automaton.specs.Fits.{FitsStand};

use crate::add::add_change;
use crate::advance::{ready_seen, section_seen};
use crate::begin::begin_change;
use crate::cancel::cancel_change;
use crate::count::{counting, survey_change};
use crate::finish::finish_change;
use crate::look::looking_change;
use crate::remove::remove_change;
use crate::scan::scan_change;
use crate::section::{entering_change, epoch_of};
use crate::started::start_change;
use crate::step::goes;
use smc_core::{Change, Choice, Phase, Scan, Stand, Word};
use smc_shape::Shape;
use smc_words::NoMemory;
use std::alloc::Global;

/// What a step of the call in progress changes.
fn go_change(alloc: Global, shape: &Shape, stand: &Stand, seen: Word) -> Result<Change, NoMemory>
    requires { FitsStand shape.now stand.now }
    ensures done { IfOk result (λ made. made ≡
        go_change shape.now stand.now stand.now.section stand.now.phase seen) }
    ensures cause { IfErr result (λ _. EndsAdd stand.now.phase Choice.Go) }
{
    let section = stand.section;
    Ok(match stand.phase {
        Phase::Idle => goes(Phase::Idle),
        Phase::Entering => entering_change(section),
        Phase::Advancing { epoch, pass: other } => section_seen(shape, epoch, other, seen.plain()),
        Phase::Ready { epoch } => ready_seen(epoch, seen.plain()),
        Phase::Look(next) => looking_change(shape, section.is_calm(), next, seen),
        Phase::Add(next) => {
            return add_change(alloc, shape, epoch_of(section), &stand.words, next, seen);
        }
        Phase::Remove(next) => remove_change(next),
        Phase::Scan(next) => scan_change(shape, next, seen),
        Phase::Begin(next) => begin_change(shape, epoch_of(section), next, seen),
        Phase::Finish(next) => finish_change(shape, next, seen),
        Phase::Cancel(next) => cancel_change(shape, next, seen),
        Phase::Survey(next) => survey_change(counting(shape, next, seen)),
    })
}

/// What the step of this choice changes, by the word that it was shown.
///
/// Only the last step of an add takes memory, for the words that its event has. `told` is the length that a learnt note
/// tells; no other choice looks at it.
pub fn changed(
    alloc: Global,
    shape: &Shape,
    pass: u32,
    stand: &Stand,
    choice: &Choice,
    told: u64,
    seen: Word,
) -> Result<Change, NoMemory>
    requires fits { FitsStand shape.now stand.now }
    ensures done { IfOk result (λ made. made ≡
        change shape.now pass stand.now stand.now.section stand.now.phase choice.now told seen) }
    ensures cause { IfErr result (λ _. EndsAdd stand.now.phase choice.now) }
{
    match choice {
        Choice::Go => go_change(alloc, shape, stand, seen),
        Choice::Start(call) => Ok(start_change(shape, pass, stand, call, told, seen)),
    }
}

#[cfg(test)]
mod tests;
