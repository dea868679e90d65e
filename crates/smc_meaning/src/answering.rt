//! The plain evaluator: the answer of a plan over rows, group by group.
ghost use Rattle.std.specs.Prelude.{◌≡◌, ◌≤◌, ◌++◌, ◌∷◌, [], List, map, Some, IfOk, OnOk, length};
ghost use Rattle.std.specs.List.{AllByRecursion};
ghost use Rattle.smc_plan.specs.Kinds.{IsOutput, IsPlace, IsPlan};
ghost use Rattle.smc_plan.specs.Leaves.{leaves_words};
ghost use Rattle.smc_plan.specs.Planned.{output_trees, plan_tree};
ghost use Rattle.smc_meaning.specs.Answers.{answer_of, columns_of, group_key};
ghost use Rattle.smc_meaning.specs.Cells.{column_seen};
ghost use Rattle.smc_meaning.specs.Groups.{groups, rows_like, shown, values_at};
ghost use Rattle.smc_meaning.specs.declared.rows.TheConstants.{ROWS_MAX};

use crate::group::{first_rows, kept_rows, rows_like};
use crate::output::output_shown;
use crate::shown::shown_at;
use crate::{Answer, AnswerRow, Cell, Rows};
use smc_folds::{Bench, Fold};
use smc_plan::{Leaf, Output, Plan, Typed};
use smc_words::NoMemory;
use std::alloc::Global;

// Puts the values of the leaves at these places behind what is there.
fn push_values(
    alloc: Global,
    leaves: &[Leaf],
    places: &[usize],
    row: &[u64],
    columns: &mut Vec<Option<Cell>>,
) -> Result<(), NoMemory>
    requires words { length row.now ≡ leaves_words leaves.now }
    requires places { AllByRecursion (IsPlace leaves.now) places.now }
    ensures { OnOk result (map column_seen columns.new.items ≡ map column_seen columns.old.items ++ map Some (values_at leaves.now places.now row.now)) }
{
    for place in places {
        let leaf = Typed::Leaf(*place);
        let cell = shown_at(alloc, leaves, &leaf, row)?;
        columns.push(Some(cell))?;
    }
    Ok(())
}

// Puts the key of a group behind what is there.
fn push_key(
    alloc: Global,
    plan: &Plan,
    group: &Rows,
    columns: &mut Vec<Option<Cell>>,
) -> Result<(), NoMemory>
    requires words { group.now.width ≡ leaves_words plan.now.leaves }
    requires sound { IsPlan plan.now.leaves (plan_tree plan.now) }
    ensures { OnOk result (map column_seen columns.new.items ≡ map column_seen columns.old.items ++ map Some (group_key (plan_tree plan.now) group.now.rows)) }
{
    if group.len() > 0 {
        push_values(
            alloc,
            plan.leaves(),
            plan.by.as_slice(),
            group.get(0),
            columns,
        )
    } else {
        Ok(())
    }
}

// Puts what output columns show of a group behind what is there.
fn push_outputs(
    alloc: Global,
    leaves: &[Leaf],
    items: &[Output],
    bench: &mut Bench,
    group: &Rows,
    columns: &mut Vec<Option<Cell>>,
) -> Result<(), NoMemory>
    requires words { group.now.width ≡ leaves_words leaves.now }
    requires count { length group.now.rows ≤ ROWS_MAX }
    requires items { AllByRecursion (IsOutput leaves.now) (output_trees items.now) }
    ensures shown { OnOk result (map column_seen columns.new.items
        ≡ map column_seen columns.old.items ++ map (λ item. shown (map (λ b. (⟦<dyn Fold as Fold>⟧ b.fold.vtable).kind b.fold.value) bench.old.boxes.items) leaves.now item group.now.rows) (output_trees items.now)) }
    ensures kept { map (λ b. (⟦<dyn Fold as Fold>⟧ b.fold.vtable).kind b.fold.value) bench.new.boxes.items
        ≡ map (λ b. (⟦<dyn Fold as Fold>⟧ b.fold.vtable).kind b.fold.value) bench.old.boxes.items }
{
    for item in items {
        let column = output_shown(alloc, leaves, item, bench, group)?;
        columns.push(column)?;
    }
    Ok(())
}

// The row of a group: its key, and what the output columns show of it.
fn group_row(
    alloc: Global,
    plan: &Plan,
    bench: &mut Bench,
    group: &Rows,
) -> Result<AnswerRow, NoMemory>
    requires words { group.now.width ≡ leaves_words plan.now.leaves }
    requires count { length group.now.rows ≤ ROWS_MAX }
    requires sound { IsPlan plan.now.leaves (plan_tree plan.now) }
    ensures row { IfOk result (λ row. row
        ≡ columns_of (plan_tree plan.now) (map (λ b. (⟦<dyn Fold as Fold>⟧ b.fold.vtable).kind b.fold.value) bench.old.boxes.items) group.now.rows) }
    ensures kept { map (λ b. (⟦<dyn Fold as Fold>⟧ b.fold.vtable).kind b.fold.value) bench.new.boxes.items
        ≡ map (λ b. (⟦<dyn Fold as Fold>⟧ b.fold.vtable).kind b.fold.value) bench.old.boxes.items }
{
    let mut columns = Vec::new(alloc);
    push_key(alloc, plan, group, &mut columns)?;
    push_outputs(
        alloc,
        plan.leaves(),
        plan.items.as_slice(),
        bench,
        group,
        &mut columns,
    )?;
    Ok(AnswerRow::of(columns))
}

// The row of one group, which all rows are.
fn one_row(
    alloc: Global,
    plan: &Plan,
    bench: &mut Bench,
    rows: &Rows,
) -> Result<Vec<AnswerRow>, NoMemory>
    requires words { rows.now.width ≡ leaves_words plan.now.leaves }
    requires count { length rows.now.rows ≤ ROWS_MAX }
    requires sound { IsPlan plan.now.leaves (plan_tree plan.now) }
    ensures rows { IfOk result (λ all. all.items
        ≡ map (columns_of (plan_tree plan.now) (map (λ b. (⟦<dyn Fold as Fold>⟧ b.fold.vtable).kind b.fold.value) bench.old.boxes.items)) (rows.now.rows ∷ [])) }
    ensures kept { map (λ b. (⟦<dyn Fold as Fold>⟧ b.fold.vtable).kind b.fold.value) bench.new.boxes.items
        ≡ map (λ b. (⟦<dyn Fold as Fold>⟧ b.fold.vtable).kind b.fold.value) bench.old.boxes.items }
{
    let mut all = Vec::new(alloc);
    all.push(group_row(alloc, plan, bench, rows)?)?;
    Ok(all)
}

// The rows of the groups that begin with these.
fn rows_by(
    alloc: Global,
    plan: &Plan,
    bench: &mut Bench,
    firsts: &Rows,
    rows: &Rows,
) -> Result<Vec<AnswerRow>, NoMemory>
    requires words { rows.now.width ≡ leaves_words plan.now.leaves }
    requires firsts { firsts.now.width ≡ leaves_words plan.now.leaves }
    requires count { length rows.now.rows ≤ ROWS_MAX }
    requires sound { IsPlan plan.now.leaves (plan_tree plan.now) }
    ensures rows { IfOk result (λ all. all.items
        ≡ map (columns_of (plan_tree plan.now) (map (λ b. (⟦<dyn Fold as Fold>⟧ b.fold.vtable).kind b.fold.value) bench.old.boxes.items))
        (map (λ first. rows_like (plan_tree plan.now) first rows.now.rows) firsts.now.rows)) }
    ensures kept { map (λ b. (⟦<dyn Fold as Fold>⟧ b.fold.vtable).kind b.fold.value) bench.new.boxes.items
        ≡ map (λ b. (⟦<dyn Fold as Fold>⟧ b.fold.vtable).kind b.fold.value) bench.old.boxes.items }
{
    let mut all = Vec::new(alloc);
    for place in 0..firsts.len() {
        let group = rows_like(alloc, plan, firsts.get(place), rows)?;
        all.push(group_row(alloc, plan, bench, &group)?)?;
    }
    Ok(all)
}

// The rows of all groups, in the order of their first rows.
fn all_rows(
    alloc: Global,
    plan: &Plan,
    bench: &mut Bench,
    rows: &Rows,
) -> Result<Vec<AnswerRow>, NoMemory>
    requires words { rows.now.width ≡ leaves_words plan.now.leaves }
    requires count { length rows.now.rows ≤ ROWS_MAX }
    requires sound { IsPlan plan.now.leaves (plan_tree plan.now) }
    ensures rows { IfOk result (λ all. all.items
        ≡ map (columns_of (plan_tree plan.now) (map (λ b. (⟦<dyn Fold as Fold>⟧ b.fold.vtable).kind b.fold.value) bench.old.boxes.items)) (groups (plan_tree plan.now) rows.now.rows)) }
    ensures kept { map (λ b. (⟦<dyn Fold as Fold>⟧ b.fold.vtable).kind b.fold.value) bench.new.boxes.items
        ≡ map (λ b. (⟦<dyn Fold as Fold>⟧ b.fold.vtable).kind b.fold.value) bench.old.boxes.items }
{
    match plan.by.as_slice().split_first() {
        None => one_row(alloc, plan, bench, rows),
        Some(_) => {
            let firsts = first_rows(alloc, plan, rows)?;
            rows_by(alloc, plan, bench, &firsts, rows)
        }
    }
}

/// The answer of a plan, whose folds are those of the bench. Each row is given by the words of all leaves of the plan.
pub fn slow(alloc: Global, plan: &Plan, bench: &mut Bench, rows: &Rows) -> Result<Answer, NoMemory>
    requires words { rows.now.width ≡ leaves_words plan.now.leaves }
    requires count { length rows.now.rows ≤ ROWS_MAX }
    requires sound { IsPlan plan.now.leaves (plan_tree plan.now) }
    ensures answer { IfOk result (λ answer. answer
        ≡ answer_of (plan_tree plan.now) (map (λ b. (⟦<dyn Fold as Fold>⟧ b.fold.vtable).kind b.fold.value) bench.old.boxes.items) rows.now.rows) }
    ensures kept { map (λ b. (⟦<dyn Fold as Fold>⟧ b.fold.vtable).kind b.fold.value) bench.new.boxes.items
        ≡ map (λ b. (⟦<dyn Fold as Fold>⟧ b.fold.vtable).kind b.fold.value) bench.old.boxes.items }
{
    let kept = kept_rows(alloc, plan, rows)?;
    let all = all_rows(alloc, plan, bench, &kept)?;
    Ok(Answer::ordered(plan.sort.as_slice(), plan.first, all))
}
