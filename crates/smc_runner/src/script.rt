//! A script that was read is run on a region of its own.
ghost use Rattle.std.specs.Prelude.{◌≡◌, ◌≤◌, None, IsSome, map};
ghost use Rattle.std.specs.List.{AllByRecursion};
ghost use Rattle.smc_outside.specs.Causes.{Rose};
ghost use Rattle.smc_types.specs.Tables.{the_tables};
ghost use Rattle.smc_script.specs.Sound.{IsSound};
ghost use Rattle.smc_script.specs.Trees.{part_tree, script_tree};
ghost use Rattle.smc_replies.specs.Scripts.{CanRunPart, unknown_line};
ghost use Rattle.smc_runner.specs.Runs.{MayOpen, RunsTo, shape_asked};

use crate::ending::{Ran, RunEnd};
use crate::opened::{run_in, shape_of};
use crate::roomless::drop_parts;
use smc_folds::{Bench, Fold};
use smc_outside::{Shelf, Sink};
use smc_script::Script;
use smc_types::Catalog;
use std::alloc::Global;

// Runs a script whose region may be opened, and whose parts may be run on it.
fn run_rooms<F: Shelf, O: Sink>(
    alloc: Global,
    script: &Script,
    catalog: &Catalog,
    bench: &mut Bench,
    shelf: &mut F,
    out: &mut O,
) -> Ran
    requires tables { catalog.now ≡ the_tables }
    requires opens { MayOpen script.now.rooms }
    requires may { AllByRecursion (CanRunPart (shape_asked script.now.rooms) script.now.folds) (map part_tree script.now.parts) }
    ensures ends { RunsTo result.end (F.files shelf.old) (map (λ b. (⟦<dyn Fold as Fold>⟧ b.fold.vtable).kind b.fold.value) bench.old.boxes.items) (script_tree script.now) result.quiet (O.held out.old) (O.held out.new) }
    ensures cause { result.end ≡ RunEnd.WriteFault → Rose (O.faults out.old) (O.faults out.new) }
    ensures later { O.faults out.old ≤ O.faults out.new }
    ensures read_cause { result.end ≡ RunEnd.ReadFault → Rose (F.faults shelf.old) (F.faults shelf.new) }
    ensures opened { result.end ≡ RunEnd.ReadFault → IsSome result.quiet }
{
    let rooms = script.rooms.as_slice();
    if rooms.is_empty() {
        return Ran::without(drop_parts(alloc, script.parts.as_slice(), bench, out));
    }
    match shape_of(alloc, catalog, rooms) {
        Ok(shape) => run_in(
            alloc,
            catalog,
            shape,
            script.parts.as_slice(),
            &script.folds,
            bench,
            shelf,
            out,
        ),
        Err(_) => Ran::without(RunEnd::NoMemory),
    }
}

/// Runs a script that was read, and of which each command is run, where its folds are the boxes of the bench. Each reply is
/// written before the next command starts.
pub fn run_script<F: Shelf, O: Sink>(
    alloc: Global,
    script: &Script,
    catalog: &Catalog,
    bench: &mut Bench,
    shelf: &mut F,
    out: &mut O,
) -> Ran
    requires tables { catalog.now ≡ the_tables }
    requires sound { IsSound the_tables script.now }
    requires known { unknown_line script.now.folds (map part_tree script.now.parts) ≡ None }
    ensures ends { RunsTo result.end (F.files shelf.old) (map (λ b. (⟦<dyn Fold as Fold>⟧ b.fold.vtable).kind b.fold.value) bench.old.boxes.items) (script_tree script.now) result.quiet (O.held out.old) (O.held out.new) }
    ensures cause { result.end ≡ RunEnd.WriteFault → Rose (O.faults out.old) (O.faults out.new) }
    ensures later { O.faults out.old ≤ O.faults out.new }
    ensures read_cause { result.end ≡ RunEnd.ReadFault → Rose (F.faults shelf.old) (F.faults shelf.new) }
    ensures opened { result.end ≡ RunEnd.ReadFault → IsSome result.quiet }
{
    run_rooms(alloc, script, catalog, bench, shelf, out)
}
