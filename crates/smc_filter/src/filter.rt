//! What a plan keeps, made ready for many rows.
ghost use Rattle.std.specs.Prelude.{◌≡◌, IfOk, IfSome, length};
ghost use Rattle.smc_plan.specs.Kinds.{IsTyped};
ghost use Rattle.smc_plan.specs.Leaves.{leaves_words};
ghost use Rattle.smc_plan.specs.Planned.{filter_condition};
ghost use Rattle.smc_filter.specs.Filters.{IsReady, keeps};

use crate::test::{Test, passes, test_of};
use smc_plan::{Leaf, TypedCond};
use smc_words::NoMemory;
use std::alloc::Global;
use std::marker::Model;

// The test of a condition that may be absent.
fn test_of_filter<'a>(
    alloc: Global,
    leaves: &[Leaf],
    condition: &'a Option<TypedCond>,
) -> Result<Option<Test<'a>>, NoMemory>
    requires sides { IfSome (filter_condition condition.now) (IsTyped leaves.now) }
    ensures { IfOk result (IsReady leaves.now condition.now) }
{
    match condition {
        Some(condition) => Ok(Some(test_of(alloc, leaves, condition)?)),
        None => Ok(None),
    }
}

/// What the plan of a query or of an edit keeps, made ready for many rows. Contracts see the plan's leaves and its condition.
#[derive(Drop)]
pub struct Filter<'a> {
    leaves: &'a [Leaf],
    condition: &'a Option<TypedCond>,
    test: Option<Test<'a>>,
}

impl<'a> Model for Filter<'a> {
    ghost use Rattle.std.specs.Coded.{codes};
    ghost use Rattle.smc_plan.specs.contracts.condition.TypedCond as conditions;
    ghost use Rattle.smc_plan.specs.contracts.typed.Typed as expressions;
    ghost use Rattle.smc_filter.specs.Filters.{Filtered, IsReady};

    ghost Value = { Filtered };

    ghost coded = { Prim.hlevel (codes, conditions.the_row.coded, expressions.the_row.coded) };

    ghost view = { λ made. record { leaves = made.leaves.now; condition = made.condition.now } };

    ghost invariant = { λ made. IsReady made.leaves.now made.condition.now made.test };
}

impl<'a> Filter<'a> {
    /// From the leaves and the condition of a plan.
    ///
    /// # Errors
    /// Memory was refused.
    pub fn of(
        alloc: Global,
        leaves: &'a [Leaf],
        condition: &'a Option<TypedCond>,
    ) -> Result<Filter<'a>, NoMemory>
        requires sides { IfSome (filter_condition condition.now) (IsTyped leaves.now) }
        ensures leaves { IfOk result (λ made. made.leaves ≡ leaves.now) }
        ensures condition { IfOk result (λ made. made.condition ≡ condition.now) }
    {
        let test = test_of_filter(alloc, leaves, condition)?;
        Ok(Filter {
            leaves,
            condition,
            test,
        })
    }

    /// Whether a row is kept, given by the words of all leaves. This takes no memory.
    #[inline]
    pub fn keeps(&self, row: &[u64]) -> bool
        requires { length row.now ≡ leaves_words self.now.leaves }
        ensures { result ≡ keeps self.now row.now }
    {
        match &self.test {
            Some(test) => passes(test, self.leaves, row),
            None => true,
        }
    }
}
