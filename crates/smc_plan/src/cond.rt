//! Conditions: their expressions placed and typed, and the two sides of each comparison tested.
ghost use Rattle.std.specs.Prelude.{◌≡◌, IsTrue};
ghost use Rattle.smc_query.specs.Trees.{cond_tree};
ghost use Rattle.smc_plan.specs.Answers.{Answers};
ghost use Rattle.smc_plan.specs.Bounds.{is_comparable, is_within, are_narrow};
ghost use Rattle.smc_plan.specs.Typed.{kinded_tree};
ghost use Rattle.smc_plan.specs.Conditions.{condition_tree};
ghost use Rattle.smc_plan.specs.Planning.{made};
ghost use Rattle.smc_plan.specs.Conds as conds;
ghost use Rattle.smc_plan.specs.Conds.{typed_cond};

use crate::condition::{both_of, either_of, negation_of};
use crate::expr::typed_expr;
use crate::kind::{are_narrow, is_comparable};
use crate::{Kinded, Leaves, PlanFault, TypedCond};
use smc_query::{Cond, Op};
use smc_types::Catalog;
use std::alloc::Global;

// A comparison of two expressions.
fn compared(op: Op, left: Kinded, right: Kinded) -> Result<TypedCond, PlanFault>
    requires left { IsTrue (is_within left.kind) }
    requires right { IsTrue (is_within right.kind) }
    ensures { Answers condition_tree result (conds.compared op (kinded_tree left) (kinded_tree right)) }
{
    if !is_comparable(left.kind, right.kind) {
        return Err(PlanFault::Types);
    }
    if !are_narrow(left.kind, right.kind) {
        return Err(PlanFault::TooWide);
    }
    Ok(TypedCond::Compare {
        op,
        left: left.typed,
        right: right.typed,
    })
}

// An expression between two others.
fn ranged(value: Kinded, low: Kinded, high: Kinded) -> Result<TypedCond, PlanFault>
    requires value { IsTrue (is_within value.kind) }
    requires low { IsTrue (is_within low.kind) }
    requires high { IsTrue (is_within high.kind) }
    ensures { Answers condition_tree result (conds.ranged (kinded_tree value) (kinded_tree low) (kinded_tree high)) }
{
    if !is_comparable(value.kind, low.kind) || !is_comparable(value.kind, high.kind) {
        return Err(PlanFault::Types);
    }
    if !are_narrow(value.kind, low.kind) || !are_narrow(value.kind, high.kind) {
        return Err(PlanFault::TooWide);
    }
    Ok(TypedCond::Between {
        value: value.typed,
        low: low.typed,
        high: high.typed,
    })
}

/// A condition on rows of a table. Its leaves are placed among the others.
pub(crate) fn typed_cond(
    alloc: Global,
    catalog: &Catalog,
    table: u32,
    leaves: &mut Leaves,
    cond: &Cond,
) -> Result<TypedCond, PlanFault>
    ensures { Answers (λ typed. made leaves.new (condition_tree typed)) result
        (typed_cond catalog.now table (cond_tree cond.now) leaves.old) }
{
    match cond {
        Cond::Or(left, right) => {
            let left = typed_cond(alloc, catalog, table, leaves, left)?;
            let right = typed_cond(alloc, catalog, table, leaves, right)?;
            Ok(either_of(alloc, left, right)?)
        }
        Cond::And(left, right) => {
            let left = typed_cond(alloc, catalog, table, leaves, left)?;
            let right = typed_cond(alloc, catalog, table, leaves, right)?;
            Ok(both_of(alloc, left, right)?)
        }
        Cond::Not(of) => {
            let of = typed_cond(alloc, catalog, table, leaves, of)?;
            Ok(negation_of(alloc, of)?)
        }
        Cond::Compare { op, left, right } => {
            let left = typed_expr(alloc, catalog, table, leaves, left)?;
            let right = typed_expr(alloc, catalog, table, leaves, right)?;
            compared(*op, left, right)
        }
        Cond::Between { value, low, high } => {
            let value = typed_expr(alloc, catalog, table, leaves, value)?;
            let low = typed_expr(alloc, catalog, table, leaves, low)?;
            let high = typed_expr(alloc, catalog, table, leaves, high)?;
            ranged(value, low, high)
        }
    }
}
