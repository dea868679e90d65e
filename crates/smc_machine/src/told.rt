//! What the other passes allow a pass: to learn a note that one of them has made, and only once.
ghost use Rattle.std.specs.Prelude.{◌≡◌};
ghost use Rattle.smc_core.specs.Machine.{has_learnt, is_learnt, noted_length, told_by};

use crate::pass::Pass;
use smc_core::{Call, Choice, Learnt};

/// What the choice is told by the other passes, if they allow it.
pub(crate) fn told_by(passes: &[Pass], pass: u32, choice: &Choice) -> Option<u64>
    ensures { result ≡ told_by passes.now pass choice.now }
{
    match choice {
        Choice::Start(Call::Learn { pass: other, note }) => {
            if *other == pass || is_learnt(passes, *other, *note) {
                None
            } else {
                noted_length(passes, *other, *note)
            }
        }
        _ => Some(0),
    }
}

/// Whether any pass has learnt this note.
fn is_learnt(passes: &[Pass], other: u32, note: u32) -> bool
    ensures { result ≡ is_learnt passes.now other note }
{
    for pass in passes {
        if has_learnt(pass.learnt(), other, note) {
            return true;
        }
    }
    false
}

/// Whether this note is among those learnt.
fn has_learnt(learnt: &[Learnt], other: u32, note: u32) -> bool
    ensures { result ≡ has_learnt learnt.now other note }
{
    for known in learnt {
        if known.pass == other && known.note == note {
            return true;
        }
    }
    false
}

/// The length of the log that a note of this pass tells, if the pass has made it.
fn noted_length(passes: &[Pass], other: u32, note: u32) -> Option<u64>
    ensures { result ≡ noted_length passes.now other note }
{
    passes
        .get(other as usize)?
        .notes()
        .get(note as usize)
        .copied()
}
