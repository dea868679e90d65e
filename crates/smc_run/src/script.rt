//! The script on the input is read, and run.
ghost use Rattle.std.specs.Prelude.{◌≡◌, ◌≢◌, ◌≤◌, IfNone, IfSome, IsSome, map};
ghost use Rattle.smc_outside.specs.Causes.{Rose};
ghost use Rattle.smc_types.specs.Tables.{the_tables};
ghost use Rattle.smc_script.specs.Sound.{IsSound};
ghost use Rattle.smc_script.specs.Trees.{script_tree};
ghost use Rattle.smc_run.specs.Ending.{refused_at, status_of_run};
ghost use Rattle.smc_run.specs.Inputs.{IsLawful, RunEnds, RunsKnown};
ghost use Rattle.smc_run.specs.Tally.{ReadsToEnd};

use crate::ended::Ended;
use crate::status::Status;
use smc_desk::{fold_names, unknown_line};
use smc_folds::{Bench, Fold};
use smc_history::laws::what_happened_is_lawful;
use smc_outside::{Shelf, Sink, Source};
use smc_runner::{Ran, RunEnd, run_script};
use smc_script::{Script, ScriptFault, read_script};
use smc_types::{Catalog, tpch};
use std::alloc::Global;

// How the program ends where there is no script.
fn refused_at(fault: ScriptFault) -> Status
    ensures { result ≡ refused_at fault }
{
    match fault {
        ScriptFault::ReadFault => Status::ReadFault,
        ScriptFault::Bad { line, .. } => Status::BadScript { line },
        ScriptFault::NoMemory => Status::NoMemory,
    }
}

// How the program ends where its script ends so.
fn status_of_run(end: RunEnd) -> Status
    ensures { result ≡ status_of_run end }
{
    match end {
        RunEnd::Done => Status::Done,
        RunEnd::WriteFault => Status::WriteFault,
        RunEnd::NoFile { name } => Status::NoFile { name },
        RunEnd::BadTable { name, line } => Status::BadTable {
            file: Some(name),
            line,
        },
        RunEnd::TableFull { name, line } => Status::TableFull { file: name, line },
        RunEnd::ReadFault => Status::ReadFault,
        RunEnd::NoMemory => Status::NoMemory,
    }
}

// Runs a script, if all its commands are run; else refuses it at the first that is not.
fn run_known<F: Shelf, O: Sink>(
    alloc: Global,
    script: &Script,
    catalog: &Catalog,
    bench: &mut Bench,
    shelf: &mut F,
    out: &mut O,
) -> Ended
    requires tables { catalog.now ≡ the_tables }
    requires sound { IsSound the_tables script.now }
    ensures ends { RunsKnown result.status (F.files shelf.old) (map (λ b. (⟦<dyn Fold as Fold>⟧ b.fold.vtable).kind b.fold.value) bench.old.boxes.items) (script_tree script.now) result.quiet (O.held out.old) (O.held out.new) }
    ensures lawful { IfSome result.quiet IsLawful }
    ensures cause { result.status ≡ Status.WriteFault → Rose (O.faults out.old) (O.faults out.new) }
    ensures later { O.faults out.old ≤ O.faults out.new }
    ensures read_cause { result.status ≡ Status.ReadFault → Rose (F.faults shelf.old) (F.faults shelf.new) }
    ensures opened { result.status ≡ Status.ReadFault → IsSome result.quiet }
{
    // Up to its closing a region has come through lawful steps.
    what_happened_is_lawful();
    let Ok(unknown) = unknown_line(alloc, script.parts.as_slice(), catalog, &script.folds) else {
        return Ended::at(Status::NoMemory);
    };
    match unknown {
        Some(line) => Ended::at(Status::BadScript { line }),
        None => {
            let Ran { end, quiet } = run_script(alloc, script, catalog, bench, shelf, out);
            Ended {
                status: status_of_run(end),
                quiet,
            }
        }
    }
}

/// Runs the script of the input, whose folds are the boxes of the bench. Nothing is written before the input was read to its end.
pub fn run<I: Source, F: Shelf, O: Sink>(
    alloc: Global,
    bench: &mut Bench,
    input: &mut I,
    shelf: &mut F,
    out: &mut O,
) -> Ended
    ensures ends { RunEnds result.status (I.left input.old) (F.files shelf.old) (map (λ b. (⟦<dyn Fold as Fold>⟧ b.fold.vtable).kind b.fold.value) bench.old.boxes.items) result.quiet (O.held out.old) (O.held out.new) }
    ensures lawful { IfSome result.quiet IsLawful }
    ensures asked { result.status ≢ Status.BadWords }
    ensures read { ReadsToEnd result.status (I.left input.old) (I.left input.new) }
    ensures input_cause { result.status ≡ Status.ReadFault → IfNone result.quiet (Rose (I.faults input.old) (I.faults input.new)) }
    ensures shelf_cause { result.status ≡ Status.ReadFault → IfSome result.quiet (λ _. Rose (F.faults shelf.old) (F.faults shelf.new)) }
    ensures out_cause { result.status ≡ Status.WriteFault → Rose (O.faults out.old) (O.faults out.new) }
{
    let Ok(catalog) = tpch(alloc) else {
        return Ended::at(Status::NoMemory);
    };
    let Ok(folds) = fold_names(alloc, bench) else {
        return Ended::at(Status::NoMemory);
    };
    match read_script(alloc, input, &catalog, folds) {
        Ok(script) => run_known(alloc, &script, &catalog, bench, shelf, out),
        Err(fault) => Ended::at(refused_at(fault)),
    }
}
