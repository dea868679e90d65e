//! Whether a plan keeps a row.
ghost use Rattle.std.specs.Prelude.{◌≡◌, IfSome, length};
ghost use Rattle.smc_plan.specs.Conditions.{condition_tree};
ghost use Rattle.smc_plan.specs.Leaves.{leaves_words};
ghost use Rattle.smc_plan.specs.Planned.{filter_condition, plan_tree};
ghost use Rattle.smc_plan.specs.Kinds.{IsTyped};
ghost use Rattle.smc_meaning.specs.Kept.{holds, is_kept, meets};

use crate::comparing::compare_at;
use smc_plan::{Leaf, Plan, TypedCond};
use smc_query::Op;
use std::cmp::Ordering;

// Whether two values that compare so are as the operator says.
fn holds(op: Op, order: Ordering) -> bool
    ensures { result ≡ holds op order }
{
    match op {
        Op::Equal => order.is_eq(),
        Op::Unequal => order.is_ne(),
        Op::Less => order.is_lt(),
        Op::LessEqual => order.is_le(),
        Op::Greater => order.is_gt(),
        Op::GreaterEqual => order.is_ge(),
    }
}

/// Whether a condition holds of a row.
pub fn meets(leaves: &[Leaf], condition: &TypedCond, row: &[u64]) -> bool
    requires words { length row.now ≡ leaves_words leaves.now }
    requires sides { IsTyped leaves.now (condition_tree condition.now) }
    ensures { result ≡ meets leaves.now (condition_tree condition.now) row.now }
{
    match condition {
        TypedCond::Or(left, right) => meets(leaves, left, row) || meets(leaves, right, row),
        TypedCond::And(left, right) => meets(leaves, left, row) && meets(leaves, right, row),
        TypedCond::Not(of) => !meets(leaves, of, row),
        TypedCond::Compare { op, left, right } => holds(
            *op,
            compare_at(leaves, left, row, right, row),
        ),
        TypedCond::Between { value, low, high } => {
            compare_at(leaves, value, row, low, row).is_ge()
                && compare_at(leaves, value, row, high, row).is_le()
        }
    }
}

/// Whether a plan keeps a row, given by the words of all its leaves.
pub fn kept(plan: &Plan, row: &[u64]) -> bool
    requires words { length row.now ≡ leaves_words plan.now.leaves }
    requires sides { IfSome (filter_condition plan.now.filter) (IsTyped plan.now.leaves) }
    ensures { result ≡ is_kept (plan_tree plan.now) row.now }
{
    match &plan.filter {
        Some(condition) => meets(plan.leaves(), condition, row),
        None => true,
    }
}
