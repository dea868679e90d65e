//! Folds: the answer of a box to the ascending numbers of a group.
ghost use Rattle.std.specs.Prelude.{◌≡◌, All, IfOk, false, true, if◌then◌else◌, map, option_and_then, option_map, unwrap_or};
ghost use Rattle.std.specs.Ordering.{int_cmp};
ghost use Rattle.smc_folds.specs.Takings.{IsAscending, IsNumber as CanBeTaken};
ghost use Rattle.smc_plan.specs.Bounds.{is_number};
ghost use Rattle.smc_plan.specs.Kinds.{IsKinded};
ghost use Rattle.smc_plan.specs.Leaves.{leaves_words};
ghost use Rattle.smc_plan.specs.Typed.{kinded_tree, typed_tree};
ghost use Rattle.smc_meaning.specs.Cells.{column_seen};
ghost use Rattle.smc_meaning.specs.Groups.{folded, scale_in, units_of, values_of};
ghost use Rattle.smc_meaning.specs.Kinds.{IsNumber};
ghost use Rattle.smc_meaning.specs.Sorting.{sorted};
ghost use Rattle.smc_meaning.specs.Values.{number};

use crate::summing::scale_in;
use crate::value::number_at;
use crate::{Cell, Decimal, Rows};
use smc_folds::{Bench, Fold};
use smc_plan::{Kinded, Leaf, Typed};
use smc_words::NoMemory;
use std::alloc::Global;

// The units of an expression in the rows of a group.
fn units_in(alloc: Global, leaves: &[Leaf], of: &Typed, rows: &Rows) -> Result<Vec<i128>, NoMemory>
    requires words { rows.now.width ≡ leaves_words leaves.now }
    requires number { IsNumber leaves.now (typed_tree of.now) }
    ensures units { IfOk result (λ units. units.items ≡ map units_of (values_of leaves.now (typed_tree of.now) rows.now.rows)) }
    ensures small { IfOk result (λ units. All CanBeTaken units.items) }
{
    let mut units = Vec::new(alloc);
    for place in 0..rows.len() {
        let number = number_at(leaves, of, rows.get(place));
        units.push(number.units)?;
    }
    Ok(units)
}

// Puts numbers in ascending order.
fn sort_units(units: &mut Vec<i128>)
    requires small { All CanBeTaken units.old.items }
    ensures sorted { units.new.items ≡ sorted int_cmp units.old.items }
    ensures ascending { IsAscending units.new.items }
    ensures small { All CanBeTaken units.new.items }
{
    units.sort_unstable();
}

// What a column shows of an answer, which has the scale of the numbers where the box is scaled.
fn answer_shown(scale: u32, scaled: Option<bool>, answer: Option<Option<i128>>) -> Option<Cell>
    ensures { column_seen result ≡ option_map (λ units. number units (if unwrap_or scaled false then scale else 0)) (option_and_then (λ one. one) answer) }
{
    let units = answer??;
    let scale = if scaled.unwrap_or(false) { scale } else { 0 };
    Some(Cell::Number(Decimal { units, scale }))
}

/// What the fold of this name answers to an expression in the rows of a group, where there is one.
pub(crate) fn fold_shown(
    alloc: Global,
    leaves: &[Leaf],
    name: &str,
    of: &Kinded,
    bench: &mut Bench,
    rows: &Rows,
) -> Result<Option<Cell>, NoMemory>
    requires words { rows.now.width ≡ leaves_words leaves.now }
    requires kinded { IsKinded leaves.now (kinded_tree of.now) }
    requires number { is_number of.now.kind ≡ true }
    ensures shown { IfOk result (λ made. column_seen made
        ≡ folded (map (λ b. (⟦<dyn Fold as Fold>⟧ b.fold.vtable).kind b.fold.value) bench.old.boxes.items) name.now (scale_in of.now.kind)
        (values_of leaves.now (typed_tree of.now.typed) rows.now.rows)) }
    ensures kept { map (λ b. (⟦<dyn Fold as Fold>⟧ b.fold.vtable).kind b.fold.value) bench.new.boxes.items
        ≡ map (λ b. (⟦<dyn Fold as Fold>⟧ b.fold.vtable).kind b.fold.value) bench.old.boxes.items }
{
    let mut units = units_in(alloc, leaves, &of.typed, rows)?;
    sort_units(&mut units);
    let scaled = bench.scaled(name);
    let answer = bench.use_one(name, &units);
    Ok(answer_shown(scale_in(of.kind), scaled, answer))
}
