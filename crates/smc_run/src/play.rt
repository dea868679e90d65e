ghost use Rattle.std.specs.Prelude.{◌≡◌, ◌≢◌};
ghost use Rattle.smc_outside.specs.Causes.{Rose};
ghost use Rattle.smc_run.specs.Play.{PlaysAs, status_at};
ghost use Rattle.smc_run.specs.Tally.{ReadsToEnd};

use crate::status::Status;
use smc_outside::{Sink, Source};
use smc_play::{PlayEnd, play_text};
use std::alloc::Global;

// How the program ends where its schedule ends so.
fn status_at(end: PlayEnd) -> Status
    ensures { result ≡ status_at end }
{
    match end {
        PlayEnd::Done => Status::Done,
        PlayEnd::BadLine { line } => Status::BadScript { line },
        PlayEnd::ReadFault => Status::ReadFault,
        PlayEnd::WriteFault => Status::WriteFault,
        PlayEnd::NoMemory => Status::NoMemory,
    }
}

/// Plays the schedule of the input on the machine, and writes the answer of each call that ends.
///
/// Nothing is written before the input was read to its end.
pub fn play<I: Source, O: Sink>(alloc: Global, input: &mut I, out: &mut O) -> Status
    ensures ends { PlaysAs result (I.left input.old) (O.held out.old) (O.held out.new) }
    ensures asked { result ≢ Status.BadWords }
    ensures read { ReadsToEnd result (I.left input.old) (I.left input.new) }
    ensures input_cause { result ≡ Status.ReadFault → Rose (I.faults input.old) (I.faults input.new) }
    ensures out_cause { result ≡ Status.WriteFault → Rose (O.faults out.old) (O.faults out.new) }
{
    let end = play_text(alloc, input, out);
    status_at(end)
}
