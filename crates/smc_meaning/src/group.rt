//! The rows that a plan keeps, and their groups.
ghost use Rattle.std.specs.Prelude.{◌≡◌, ◌≤◌, [], IfOk, length, take};
ghost use Rattle.std.specs.List.{AllByRecursion, list_any};
ghost use Rattle.smc_plan.specs.Leaves.{leaves_words};
ghost use Rattle.smc_plan.specs.Planned.{plan_tree};
ghost use Rattle.smc_meaning.specs.Groups.{first_rows, rows_like, same_cells, same_key, values_at};
ghost use Rattle.smc_meaning.specs.Kept.{kept_rows};
ghost use Rattle.smc_plan.specs.Kinds.{IsPlace, IsPlan};

use crate::Rows;
use crate::comparing::compare_rows;
use crate::filter::kept;
use smc_plan::{Leaf, Plan, Typed};
use smc_words::NoMemory;
use std::alloc::Global;

/// The rows that a plan keeps, in order.
pub(crate) fn kept_rows(alloc: Global, plan: &Plan, rows: &Rows) -> Result<Rows, NoMemory>
    requires words { rows.now.width ≡ leaves_words plan.now.leaves }
    requires sound { IsPlan plan.now.leaves (plan_tree plan.now) }
    ensures { IfOk result (λ kept. kept ≡ record rows.now { rows = kept_rows (plan_tree plan.now) rows.now.rows }) }
{
    let mut all = Rows::new(alloc, rows.width());
    for place in 0..rows.len() {
        let row = rows.get(place);
        if kept(plan, row) {
            all.push(row)?;
        }
    }
    Ok(all)
}

// Whether two rows have the same values of the leaves at these places.
fn same_values(leaves: &[Leaf], places: &[usize], one: &[u64], other: &[u64]) -> bool
    requires one { length one.now ≡ leaves_words leaves.now }
    requires other { length other.now ≡ leaves_words leaves.now }
    requires places { AllByRecursion (IsPlace leaves.now) places.now }
    ensures { result ≡ same_cells (values_at leaves.now places.now one.now) (values_at leaves.now places.now other.now) }
{
    match places.split_first() {
        None => true,
        Some((place, rest)) => {
            let leaf = Typed::Leaf(*place);
            compare_rows(leaves, &leaf, one, other).is_eq() && same_values(leaves, rest, one, other)
        }
    }
}

// Whether two rows belong to one group.
fn same_key(plan: &Plan, one: &[u64], other: &[u64]) -> bool
    requires one { length one.now ≡ leaves_words plan.now.leaves }
    requires other { length other.now ≡ leaves_words plan.now.leaves }
    requires sound { IsPlan plan.now.leaves (plan_tree plan.now) }
    ensures { result ≡ same_key (plan_tree plan.now) one.now other.now }
{
    same_values(plan.leaves(), plan.by.as_slice(), one, other)
}

// Whether one of so many rows has the key of this one.
fn has_key(plan: &Plan, rows: &Rows, count: usize, row: &[u64]) -> bool
    requires words { rows.now.width ≡ leaves_words plan.now.leaves }
    requires row { length row.now ≡ leaves_words plan.now.leaves }
    requires count { count ≤ length rows.now.rows }
    requires sound { IsPlan plan.now.leaves (plan_tree plan.now) }
    ensures { result ≡ list_any (λ other. same_key (plan_tree plan.now) other row.now) (take count rows.now.rows) }
{
    for place in 0..count {
        if same_key(plan, rows.get(place), row) {
            return true;
        }
    }
    false
}

/// The rows whose key no row before them has.
pub(crate) fn first_rows(alloc: Global, plan: &Plan, rows: &Rows) -> Result<Rows, NoMemory>
    requires words { rows.now.width ≡ leaves_words plan.now.leaves }
    requires sound { IsPlan plan.now.leaves (plan_tree plan.now) }
    ensures { IfOk result (λ firsts. firsts ≡ record rows.now { rows = first_rows (plan_tree plan.now) [] rows.now.rows }) }
{
    let mut firsts = Rows::new(alloc, rows.width());
    for place in 0..rows.len() {
        let row = rows.get(place);
        if !has_key(plan, rows, place, row) {
            firsts.push(row)?;
        }
    }
    Ok(firsts)
}

/// The rows that have the key of this one.
pub(crate) fn rows_like(
    alloc: Global,
    plan: &Plan,
    first: &[u64],
    rows: &Rows,
) -> Result<Rows, NoMemory>
    requires words { rows.now.width ≡ leaves_words plan.now.leaves }
    requires first { length first.now ≡ leaves_words plan.now.leaves }
    requires sound { IsPlan plan.now.leaves (plan_tree plan.now) }
    ensures { IfOk result (λ group. group ≡ record rows.now { rows = rows_like (plan_tree plan.now) first.now rows.now.rows }) }
{
    let mut group = Rows::new(alloc, rows.width());
    for place in 0..rows.len() {
        let row = rows.get(place);
        if same_key(plan, first, row) {
            group.push(row)?;
        }
    }
    Ok(group)
}
