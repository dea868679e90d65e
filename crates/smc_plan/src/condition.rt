//! Conditions of a plan, and how they are made.
ghost use Rattle.std.specs.Prelude.{◌≡◌, IfOk};
ghost use Rattle.smc_plan.specs.Conditions as trees;
ghost use Rattle.smc_plan.specs.Conditions.{condition_tree};

use crate::Typed;
use smc_query::Op;
use smc_words::NoMemory;
use std::alloc::Global;

/// A condition on the leaves of a row.
#[derive(Debug, Drop)]
pub enum TypedCond {
    Or(Box<TypedCond>, Box<TypedCond>),
    And(Box<TypedCond>, Box<TypedCond>),
    Not(Box<TypedCond>),
    /// Both sides are numbers, both are days, or both are texts.
    Compare {
        op: Op,
        left: Typed,
        right: Typed,
    },
    /// All three are numbers, all are days, or all are texts.
    Between {
        value: Typed,
        low: Typed,
        high: Typed,
    },
}

/// Either of two conditions.
pub(crate) fn either_of(
    alloc: Global,
    left: TypedCond,
    right: TypedCond,
) -> Result<TypedCond, NoMemory>
    ensures { IfOk result (λ node. condition_tree node ≡ trees.either (condition_tree left) (condition_tree right)) }
{
    Ok(TypedCond::Or(Box::new(alloc, left)?, Box::new(alloc, right)?))
}

/// Both of two conditions.
pub(crate) fn both_of(
    alloc: Global,
    left: TypedCond,
    right: TypedCond,
) -> Result<TypedCond, NoMemory>
    ensures { IfOk result (λ node. condition_tree node ≡ trees.both (condition_tree left) (condition_tree right)) }
{
    Ok(TypedCond::And(Box::new(alloc, left)?, Box::new(alloc, right)?))
}

/// A condition, turned round.
pub(crate) fn negation_of(alloc: Global, of: TypedCond) -> Result<TypedCond, NoMemory>
    ensures { IfOk result (λ node. condition_tree node ≡ trees.negation (condition_tree of)) }
{
    Ok(TypedCond::Not(Box::new(alloc, of)?))
}
