//! The region of a script, from its opening to its closing.
ghost use Rattle.std.specs.Prelude.{◌≡◌, ◌≤◌, [], ◌∷◌, None, IfOk, IsSome, map};
ghost use Rattle.std.specs.List.{AllByRecursion};
ghost use Rattle.smc_outside.specs.Causes.{Rose};
ghost use Rattle.smc_shape.specs.Faults.{fault_of};
ghost use Rattle.smc_region.specs.Callers.{IsPassOf, new_caller};
ghost use Rattle.smc_types.specs.Tables.{the_tables};
ghost use Rattle.smc_script.specs.Trees.{part_tree};
ghost use Rattle.smc_region.specs.Reached.{IsReached};
ghost use Rattle.smc_core.specs.declared.section.TheConstants.{FIRST_EPOCH};
ghost use Rattle.smc_replies.specs.Scripts.{CanRunPart};
ghost use Rattle.smc_desk.specs.Scenes.{scene_of};
ghost use Rattle.smc_runner.specs.Runs.{HasClosed, RunsAs, colls_asked, shape_asked};

use crate::ending::{Ran, RunEnd};
use crate::parts::run_all;
use smc_core::Opening;
use smc_folds::{Bench, Fold};
use smc_outside::{Shelf, Sink};
use smc_region::{Pass, Quiet, Region};
use smc_script::{FoldNames, Part, Room, table_width};
use smc_shape::{CollShape, Shape};
use smc_types::Catalog;
use smc_words::NoMemory;
use std::alloc::Global;

/// The shape of the region in which these rooms are.
pub(crate) fn shape_of(alloc: Global, catalog: &Catalog, rooms: &[Room]) -> Result<Shape, NoMemory>
    requires tables { catalog.now ≡ the_tables }
    requires opens { fault_of 1 (colls_asked rooms.now) ≡ None }
    ensures { IfOk result (λ shape. shape ≡ shape_asked rooms.now) }
{
    let mut colls = Vec::new(alloc);
    for room in rooms {
        colls.push(CollShape {
            width: table_width(catalog, room.place.table),
            slots: room.slots,
        })?;
    }
    match Shape::new(1, colls) {
        Ok(shape) => Ok(shape),
        Err(_) => unreachable!(),
    }
}

// A region without objects, and its one pass. The vector has room for that pass.
fn open_region(alloc: Global, shape: Shape) -> Result<(Region, Pass, Vec<Pass>), NoMemory>
    requires { shape.passes ≡ 1 }
    ensures shape { IfOk result (λ opened. opened.0.about.shape ≡ shape) }
    ensures opening { IfOk result (λ opened. opened.0.about.opening ≡ record { epoch = FIRST_EPOCH; incarnation = 0 }) }
    ensures pass { IfOk result (λ opened. opened.1 ≡ new_caller opened.0.table.shared.table_id shape 0) }
    ensures rest { IfOk result (λ opened. opened.2.items ≡ []) }
{
    let (region, mut passes) = Region::open(alloc, shape, Opening::plain())?;
    match passes.pop() {
        Some(pass) => Ok((region, pass, passes)),
        None => unreachable!(),
    }
}

// Closes a region that has this pass alone.
fn close_region(region: Region, pass: Pass, mut passes: Vec<Pass>) -> Result<Quiet, NoMemory>
    requires rest { passes.items ≡ [] }
    requires one { region.about.shape.passes ≡ 1 }
    requires here { IsPassOf region pass }
    requires first { pass.number ≡ 0 }
    ensures shape { IfOk result (λ quiet. quiet.shape ≡ region.about.shape) }
    ensures opening { IfOk result (λ quiet. quiet.opening ≡ region.about.opening) }
    ensures locals { IfOk result (λ quiet. quiet.locals ≡ pass.local ∷ []) }
    ensures reached { IfOk result (λ quiet. IsReached quiet.shape quiet.opening quiet.words quiet.locals) }
{
    passes.push(pass).map_err(|_| NoMemory)?;
    Ok(region.close(passes))
}

/// Runs the parts by the one pass of a new region, and closes it.
pub(crate) fn run_in<F: Shelf, O: Sink>(
    alloc: Global,
    catalog: &Catalog,
    shape: Shape,
    parts: &[Part],
    folds: &FoldNames,
    bench: &mut Bench,
    shelf: &mut F,
    out: &mut O,
) -> Ran
    requires tables { catalog.now ≡ the_tables }
    requires one { shape.passes ≡ 1 }
    requires may { AllByRecursion (CanRunPart shape folds.now) (map part_tree parts.now) }
    ensures ends { RunsAs (HasClosed shape) (scene_of (F.files shelf.old) shape folds.now) (map (λ b. (⟦<dyn Fold as Fold>⟧ b.fold.vtable).kind b.fold.value) bench.old.boxes.items) result.end (map part_tree parts.now) result.quiet (O.held out.old) (O.held out.new) }
    ensures cause { result.end ≡ RunEnd.WriteFault → Rose (O.faults out.old) (O.faults out.new) }
    ensures later { O.faults out.old ≤ O.faults out.new }
    ensures read_cause { result.end ≡ RunEnd.ReadFault → Rose (F.faults shelf.old) (F.faults shelf.new) }
    ensures opened { result.end ≡ RunEnd.ReadFault → IsSome result.quiet }
{
    let Ok((region, pass, passes)) = open_region(alloc, shape) else {
        return Ran::without(RunEnd::NoMemory);
    };
    let (pass, end) = run_all(
        alloc, parts, catalog, folds, bench, shelf, pass, &region, out,
    );
    if matches!(end, RunEnd::NoMemory) {
        return Ran::without(RunEnd::NoMemory);
    }
    match close_region(region, pass, passes) {
        Ok(quiet) => Ran {
            end,
            quiet: Some(quiet),
        },
        Err(_) => Ran::without(RunEnd::NoMemory),
    }
}
