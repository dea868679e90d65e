//! A command of a script is run, and its reply is written.
ghost use Rattle.std.specs.Prelude.{◌≡◌, ◌≤◌, map};
ghost use Rattle.smc_outside.specs.Causes.{Rose};
ghost use Rattle.smc_region.specs.Callers.{IsPassOf, IsSame};
ghost use Rattle.smc_does.specs.Does.{OwnsNone};
ghost use Rattle.smc_types.specs.Tables.{the_tables};
ghost use Rattle.smc_script.specs.Trees.{numbered_tree};
ghost use Rattle.smc_script.specs.Trees as trees;
ghost use Rattle.smc_replies.specs.Scripts.{CanRunPart};
ghost use Rattle.smc_desk.specs.Scenes.{scene_of, seen};
ghost use Rattle.smc_runner.specs.Runs.{PartEnds};

use crate::ending::{RunEnd, end_of, write_reply};
use smc_desk::{Books, load_table, one};
use smc_folds::{Bench, Fold};
use smc_outside::{Shelf, Sink};
use smc_region::{Pass, Region};
use smc_script::{Command, FoldNames, Numbered};
use smc_types::Catalog;
use std::alloc::Global;

/// Runs one command, and writes its reply.
pub(crate) fn run_one<F: Shelf, O: Sink>(
    alloc: Global,
    numbered: &Numbered,
    catalog: &Catalog,
    folds: &FoldNames,
    books: &mut Books,
    bench: &mut Bench,
    shelf: &mut F,
    pass: Pass,
    region: &Region,
    out: &mut O,
) -> (Pass, RunEnd)
    requires here { IsPassOf region.now pass }
    requires free { OwnsNone pass }
    requires tables { catalog.now ≡ the_tables }
    requires may { CanRunPart region.now.about.shape folds.now (trees.one (numbered_tree numbered.now)) }
    ensures home { IsSame pass result.0 × OwnsNone result.0 }
    ensures ends { PartEnds (scene_of (F.files shelf.old) region.now.about.shape folds.now) result.1 (trees.one (numbered_tree numbered.now)) (seen books.old (map (λ b. (⟦<dyn Fold as Fold>⟧ b.fold.vtable).kind b.fold.value) bench.old.boxes.items)) (seen books.new (map (λ b. (⟦<dyn Fold as Fold>⟧ b.fold.vtable).kind b.fold.value) bench.new.boxes.items)) pass result.0 (O.held out.old) (O.held out.new) }
    ensures cause { result.1 ≡ RunEnd.WriteFault → Rose (O.faults out.old) (O.faults out.new) }
    ensures later { O.faults out.old ≤ O.faults out.new }
    ensures read_cause { result.1 ≡ RunEnd.ReadFault → Rose (F.faults shelf.old) (F.faults shelf.new) }
    ensures kept { F.files shelf.new ≡ F.files shelf.old }
    ensures shelf_later { F.faults shelf.old ≤ F.faults shelf.new }
{
    if let Command::Load { place, file } = &numbered.command {
        let (pass, answer) = load_table(alloc, *place, file, catalog, books, shelf, pass, region);
        return match answer {
            Ok(reply) => (pass, write_reply(out, &reply)),
            Err(fault) => (pass, end_of(alloc, file, fault)),
        };
    }
    let (pass, reply) = one(
        alloc,
        &numbered.command,
        catalog,
        folds,
        books,
        bench,
        pass,
        region,
    );
    match reply {
        Ok(reply) => (pass, write_reply(out, &reply)),
        Err(_) => (pass, RunEnd::NoMemory),
    }
}
