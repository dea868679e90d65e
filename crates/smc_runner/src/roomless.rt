//! Scripts without rooms, whose commands drop folds and do no more.
ghost use Rattle.std.specs.Prelude.{◌≡◌, ◌≤◌, map};
ghost use Rattle.std.specs.List.{AllByRecursion};
ghost use Rattle.smc_outside.specs.Causes.{Rose};
ghost use Rattle.smc_script.specs.Trees.{part_tree};
ghost use Rattle.smc_replies.specs.Loads.{Scene};
ghost use Rattle.smc_runner.specs.Drops.{Drops, DropEnds, DropsEnd};

use crate::ending::{RunEnd, write_reply};
use smc_desk::dropped_line;
use smc_folds::{Bench, Fold};
use smc_outside::Sink;
use smc_script::{Command, Part};
use std::alloc::Global;

// Runs a part that drops a fold.
fn drop_part<O: Sink>(alloc: Global, part: &Part, bench: &mut Bench, out: &mut O) -> RunEnd
    requires drops { Drops (part_tree part.now) }
    ensures ends { (scene : Scene) → DropEnds scene result (part_tree part.now)
        (map (λ b. (⟦<dyn Fold as Fold>⟧ b.fold.vtable).kind b.fold.value) bench.old.boxes.items)
        (map (λ b. (⟦<dyn Fold as Fold>⟧ b.fold.vtable).kind b.fold.value) bench.new.boxes.items) (O.held out.old) (O.held out.new) }
    ensures cause { result ≡ RunEnd.WriteFault → Rose (O.faults out.old) (O.faults out.new) }
    ensures later { O.faults out.old ≤ O.faults out.new }
{
    match part {
        Part::One(numbered) => match &numbered.command {
            Command::DropFold { name } => {
                bench.drop_one(name.as_str());
                match dropped_line(alloc, name.as_str()) {
                    Ok(reply) => write_reply(out, &reply),
                    Err(_) => RunEnd::NoMemory,
                }
            }
            _ => unreachable!(),
        },
        Part::Group { .. } => unreachable!(),
    }
}

/// Runs parts that drop folds, in order.
pub(crate) fn drop_parts<O: Sink>(
    alloc: Global,
    parts: &[Part],
    bench: &mut Bench,
    out: &mut O,
) -> RunEnd
    requires drops { AllByRecursion Drops (map part_tree parts.now) }
    ensures ends { (scene : Scene) → DropsEnd scene result (map part_tree parts.now)
        (map (λ b. (⟦<dyn Fold as Fold>⟧ b.fold.vtable).kind b.fold.value) bench.old.boxes.items) (O.held out.old) (O.held out.new) }
    ensures cause { result ≡ RunEnd.WriteFault → Rose (O.faults out.old) (O.faults out.new) }
    ensures later { O.faults out.old ≤ O.faults out.new }
{
    match parts.split_first() {
        None => RunEnd::Done,
        Some((part, behind)) => match drop_part(alloc, part, bench, out) {
            RunEnd::Done => drop_parts(alloc, behind, bench, out),
            end => end,
        },
    }
}
