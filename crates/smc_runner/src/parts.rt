//! The parts of a script are run one behind another.
ghost use Rattle.std.specs.Prelude.{◌≡◌, ◌≤◌, map};
ghost use Rattle.std.specs.List.{AllByRecursion};
ghost use Rattle.smc_outside.specs.Causes.{Rose};
ghost use Rattle.smc_region.specs.Callers.{IsPassOf, IsSame};
ghost use Rattle.smc_does.specs.Does.{OwnsNone};
ghost use Rattle.smc_types.specs.Tables.{the_tables};
ghost use Rattle.smc_script.specs.Trees.{part_tree};
ghost use Rattle.smc_replies.specs.Books.{books_of};
ghost use Rattle.smc_replies.specs.Scripts.{CanRunPart};
ghost use Rattle.smc_desk.specs.Scenes.{scene_of, seen};
ghost use Rattle.smc_runner.specs.Runs.{PartEnds, PartsEnd};

use crate::command::run_one;
use crate::ending::RunEnd;
use smc_desk::Books;
use smc_folds::{Bench, Fold};
use smc_outside::{Shelf, Sink};
use smc_region::{Pass, Region};
use smc_script::{FoldNames, Part};
use smc_types::Catalog;
use std::alloc::Global;

// Runs one part, and writes its reply.
fn run_part<F: Shelf, O: Sink>(
    alloc: Global,
    part: &Part,
    catalog: &Catalog,
    folds: &FoldNames,
    books: &mut Books,
    bench: &mut Bench,
    shelf: &mut F,
    pass: Pass,
    region: &Region,
    out: &mut O,
) -> (Pass, RunEnd)
    requires here { IsPassOf region.now pass }
    requires free { OwnsNone pass }
    requires tables { catalog.now ≡ the_tables }
    requires may { CanRunPart region.now.about.shape folds.now (part_tree part.now) }
    ensures home { IsSame pass result.0 × OwnsNone result.0 }
    ensures ends { PartEnds (scene_of (F.files shelf.old) region.now.about.shape folds.now) result.1 (part_tree part.now) (seen books.old (map (λ b. (⟦<dyn Fold as Fold>⟧ b.fold.vtable).kind b.fold.value) bench.old.boxes.items)) (seen books.new (map (λ b. (⟦<dyn Fold as Fold>⟧ b.fold.vtable).kind b.fold.value) bench.new.boxes.items)) pass result.0 (O.held out.old) (O.held out.new) }
    ensures cause { result.1 ≡ RunEnd.WriteFault → Rose (O.faults out.old) (O.faults out.new) }
    ensures later { O.faults out.old ≤ O.faults out.new }
    ensures read_cause { result.1 ≡ RunEnd.ReadFault → Rose (F.faults shelf.old) (F.faults shelf.new) }
    ensures kept { F.files shelf.new ≡ F.files shelf.old }
    ensures shelf_later { F.faults shelf.old ≤ F.faults shelf.new }
{
    match part {
        Part::One(numbered) => {
            run_one(
                alloc, numbered, catalog, folds, books, bench, shelf, pass, region, out,
            )
        }
        Part::Group { .. } => unreachable!(),
    }
}

// Runs the parts in order. The reply to each is written before the next one starts.
fn run_parts<F: Shelf, O: Sink>(
    alloc: Global,
    parts: &[Part],
    catalog: &Catalog,
    folds: &FoldNames,
    books: &mut Books,
    bench: &mut Bench,
    shelf: &mut F,
    pass: Pass,
    region: &Region,
    out: &mut O,
) -> (Pass, RunEnd)
    requires here { IsPassOf region.now pass }
    requires free { OwnsNone pass }
    requires tables { catalog.now ≡ the_tables }
    requires may { AllByRecursion (CanRunPart region.now.about.shape folds.now) (map part_tree parts.now) }
    ensures home { IsSame pass result.0 × OwnsNone result.0 }
    ensures ends { PartsEnd (scene_of (F.files shelf.old) region.now.about.shape folds.now) result.1 (map part_tree parts.now) (seen books.old (map (λ b. (⟦<dyn Fold as Fold>⟧ b.fold.vtable).kind b.fold.value) bench.old.boxes.items)) pass result.0 (O.held out.old) (O.held out.new) }
    ensures cause { result.1 ≡ RunEnd.WriteFault → Rose (O.faults out.old) (O.faults out.new) }
    ensures later { O.faults out.old ≤ O.faults out.new }
    ensures read_cause { result.1 ≡ RunEnd.ReadFault → Rose (F.faults shelf.old) (F.faults shelf.new) }
    ensures kept { F.files shelf.new ≡ F.files shelf.old }
    ensures shelf_later { F.faults shelf.old ≤ F.faults shelf.new }
{
    let mut pass = pass;
    for part in parts {
        let (next, end) = run_part(
            alloc, part, catalog, folds, books, bench, shelf, pass, region, out,
        );
        pass = next;
        match end {
            RunEnd::Done => {}
            end => return (pass, end),
        }
    }
    (pass, RunEnd::Done)
}

/// Runs the parts of a whole script, before which nothing is known but the folds.
pub(crate) fn run_all<F: Shelf, O: Sink>(
    alloc: Global,
    parts: &[Part],
    catalog: &Catalog,
    folds: &FoldNames,
    bench: &mut Bench,
    shelf: &mut F,
    pass: Pass,
    region: &Region,
    out: &mut O,
) -> (Pass, RunEnd)
    requires here { IsPassOf region.now pass }
    requires free { OwnsNone pass }
    requires tables { catalog.now ≡ the_tables }
    requires may { AllByRecursion (CanRunPart region.now.about.shape folds.now) (map part_tree parts.now) }
    ensures home { IsSame pass result.0 × OwnsNone result.0 }
    ensures ends { PartsEnd (scene_of (F.files shelf.old) region.now.about.shape folds.now) result.1 (map part_tree parts.now) (books_of (map (λ b. (⟦<dyn Fold as Fold>⟧ b.fold.vtable).kind b.fold.value) bench.old.boxes.items)) pass result.0 (O.held out.old) (O.held out.new) }
    ensures cause { result.1 ≡ RunEnd.WriteFault → Rose (O.faults out.old) (O.faults out.new) }
    ensures later { O.faults out.old ≤ O.faults out.new }
    ensures read_cause { result.1 ≡ RunEnd.ReadFault → Rose (F.faults shelf.old) (F.faults shelf.new) }
    ensures kept { F.files shelf.new ≡ F.files shelf.old }
    ensures shelf_later { F.faults shelf.old ≤ F.faults shelf.new }
{
    let mut books = Books::new(alloc);
    run_parts(
        alloc, parts, catalog, folds, &mut books, bench, shelf, pass, region, out,
    )
}
