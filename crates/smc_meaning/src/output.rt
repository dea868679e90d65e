//! What an output column shows of a group.
ghost use Rattle.std.specs.Prelude.{◌≡◌, ◌≤◌, IfOk, length, map};
ghost use Rattle.smc_plan.specs.Kinds.{IsOutput};
ghost use Rattle.smc_plan.specs.Leaves.{leaves_words};
ghost use Rattle.smc_plan.specs.Outputs.{output_tree};
ghost use Rattle.smc_meaning.specs.Groups.{shown};
ghost use Rattle.smc_meaning.specs.Cells.{column_seen};
ghost use Rattle.smc_meaning.specs.declared.rows.TheConstants.{ROWS_MAX};

use crate::extremes::end_shown;
use crate::folding::fold_shown;
use crate::summing::{average_shown, sum_shown};
use crate::{Cell, Decimal, End, Rows};
use smc_folds::{Bench, Fold};
use smc_plan::{Leaf, Output};
use smc_words::NoMemory;
use std::alloc::Global;

/// What an output column shows of a group.
pub(crate) fn output_shown(
    alloc: Global,
    leaves: &[Leaf],
    output: &Output,
    bench: &mut Bench,
    rows: &Rows,
) -> Result<Option<Cell>, NoMemory>
    requires words { rows.now.width ≡ leaves_words leaves.now }
    requires count { length rows.now.rows ≤ ROWS_MAX }
    requires output { IsOutput leaves.now (output_tree output.now) }
    ensures shown { IfOk result (λ made. column_seen made
        ≡ shown (map (λ b. (⟦<dyn Fold as Fold>⟧ b.fold.vtable).kind b.fold.value) bench.old.boxes.items) leaves.now (output_tree output.now) rows.now.rows) }
    ensures kept { map (λ b. (⟦<dyn Fold as Fold>⟧ b.fold.vtable).kind b.fold.value) bench.new.boxes.items
        ≡ map (λ b. (⟦<dyn Fold as Fold>⟧ b.fold.vtable).kind b.fold.value) bench.old.boxes.items }
{
    match output {
        Output::Count => Ok(Some(Cell::Number(Decimal {
            units: rows.len() as i128,
            scale: 0,
        }))),
        Output::Sum(of) => Ok(sum_shown(leaves, of, rows)),
        Output::Avg(of) => Ok(average_shown(leaves, of, rows)),
        Output::Min(of) => end_shown(alloc, leaves, &of.typed, End::Least, rows),
        Output::Max(of) => end_shown(alloc, leaves, &of.typed, End::Greatest, rows),
        Output::Fold { name, of } => fold_shown(alloc, leaves, name.as_str(), of, bench, rows),
    }
}
