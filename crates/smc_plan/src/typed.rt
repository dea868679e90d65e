//! Expressions of a plan, and how they are made.
ghost use Rattle.std.specs.Prelude.{◌≡◌, IfOk};
ghost use Rattle.smc_plan.specs.Typed as trees;
ghost use Rattle.smc_plan.specs.Typed.{typed_tree};

use crate::Kind;
use smc_tokens::Quoted;
use smc_words::NoMemory;
use std::alloc::Global;

/// An expression over the leaves of a row.
#[derive(Debug, Drop)]
pub enum Typed {
    /// So many units, of which ten to the power of `scale` make one.
    Number { units: u64, scale: u32 },
    /// Days from 1970-01-01.
    Day(i32),
    Text(Quoted),
    /// The value of the leaf at this place.
    Leaf(usize),
    Add(Box<Typed>, Box<Typed>),
    Sub(Box<Typed>, Box<Typed>),
    Mul(Box<Typed>, Box<Typed>),
    Minus(Box<Typed>),
}

/// An expression, and what it is.
#[derive(Debug, Drop)]
pub struct Kinded {
    pub typed: Typed,
    pub kind: Kind,
}

/// Two expressions, added.
pub(crate) fn sum_of(alloc: Global, left: Typed, right: Typed) -> Result<Typed, NoMemory>
    ensures { IfOk result (λ node. typed_tree node ≡ trees.sum (typed_tree left) (typed_tree right)) }
{
    Ok(Typed::Add(Box::new(alloc, left)?, Box::new(alloc, right)?))
}

/// Two expressions, the second taken from the first.
pub(crate) fn difference_of(alloc: Global, left: Typed, right: Typed) -> Result<Typed, NoMemory>
    ensures { IfOk result (λ node. typed_tree node ≡ trees.difference (typed_tree left) (typed_tree right)) }
{
    Ok(Typed::Sub(Box::new(alloc, left)?, Box::new(alloc, right)?))
}

/// Two expressions, multiplied.
pub(crate) fn product_of(alloc: Global, left: Typed, right: Typed) -> Result<Typed, NoMemory>
    ensures { IfOk result (λ node. typed_tree node ≡ trees.product (typed_tree left) (typed_tree right)) }
{
    Ok(Typed::Mul(Box::new(alloc, left)?, Box::new(alloc, right)?))
}

/// An expression, taken from nothing.
pub(crate) fn minus_of(alloc: Global, of: Typed) -> Result<Typed, NoMemory>
    ensures { IfOk result (λ node. typed_tree node ≡ trees.minus (typed_tree of)) }
{
    Ok(Typed::Minus(Box::new(alloc, of)?))
}
