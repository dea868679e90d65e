//! Conditions that are made ready, and tested.
ghost use Rattle.std.specs.Prelude.{◌≡◌, ℕ, List, IfOk, length};
ghost use Rattle.smc_plan.specs.Conditions.{condition_tree};
ghost use Rattle.smc_plan.specs.Kinds.{IsTyped};
ghost use Rattle.smc_plan.specs.Leaves.{leaves_words};
ghost use Rattle.smc_meaning.specs.Kept.{meets};
ghost use Rattle.smc_filter.specs.Tests.{FitsTest, passes};

use crate::Word;
use crate::word::{meets_word, word_of};
use smc_meaning::meets;
use smc_plan::{Leaf, Typed, TypedCond};
use smc_query::Op;
use smc_words::NoMemory;
use std::alloc::Global;

/// A condition of a plan, made ready for many rows.
#[derive(Drop)]
pub enum Test<'a> {
    Or(Box<Test<'a>>, Box<Test<'a>>),
    And(Box<Test<'a>>, Box<Test<'a>>),
    Not(Box<Test<'a>>),
    /// The number or the day in one word of a row, against so many units or days.
    Word(Word),
    /// Any other condition, which is evaluated plainly.
    Plain(&'a TypedCond),
}

/// Makes a condition ready.
///
/// # Errors
/// Memory was refused.
pub fn test_of<'a>(
    alloc: Global,
    leaves: &[Leaf],
    cond: &'a TypedCond,
) -> Result<Test<'a>, NoMemory>
    requires sides { IsTyped leaves.now (condition_tree cond.now) }
    ensures same { IfOk result (λ test. (words : List ℕ) → length words ≡ leaves_words leaves.now
        → passes leaves.now test words ≡ meets leaves.now (condition_tree cond.now) words) }
    ensures fits { IfOk result (FitsTest leaves.now) }
{
    match cond {
        TypedCond::Or(left, right) => {
            let left = test_of(alloc, leaves, left)?;
            let right = test_of(alloc, leaves, right)?;
            Ok(Test::Or(Box::new(alloc, left)?, Box::new(alloc, right)?))
        }
        TypedCond::And(left, right) => {
            let left = test_of(alloc, leaves, left)?;
            let right = test_of(alloc, leaves, right)?;
            Ok(Test::And(Box::new(alloc, left)?, Box::new(alloc, right)?))
        }
        TypedCond::Not(of) => {
            let of = test_of(alloc, leaves, of)?;
            Ok(Test::Not(Box::new(alloc, of)?))
        }
        TypedCond::Compare { op, left, right } => match word_of(leaves, *op, left, right) {
            Some(word) => Ok(Test::Word(word)),
            None => Ok(Test::Plain(cond)),
        },
        TypedCond::Between { value, low, high } => {
            match (
                word_of(leaves, Op::GreaterEqual, value, low),
                word_of(leaves, Op::LessEqual, value, high),
            ) {
                (Some(low), Some(high)) => Ok(Test::And(
                    Box::new(alloc, Test::Word(low))?,
                    Box::new(alloc, Test::Word(high))?,
                )),
                _ => Ok(Test::Plain(cond)),
            }
        }
    }
}

/// Whether a row passes a test. No test takes memory, and the comparison of a word takes no loop.
pub fn passes(test: &Test<'_>, leaves: &[Leaf], row: &[u64]) -> bool
    requires fits { FitsTest leaves.now test.now }
    requires words { length row.now ≡ leaves_words leaves.now }
    ensures { result ≡ passes leaves.now test.now row.now }
{
    match test {
        Test::Or(left, right) => passes(left, leaves, row) || passes(right, leaves, row),
        Test::And(left, right) => passes(left, leaves, row) && passes(right, leaves, row),
        Test::Not(of) => !passes(of, leaves, row),
        Test::Word(word) => meets_word(word, row),
        Test::Plain(cond) => meets(leaves, cond, row),
    }
}
