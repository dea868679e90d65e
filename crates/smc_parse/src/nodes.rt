ghost use Rattle.std.specs.Prelude.{◌≡◌, IfOk};
ghost use Rattle.smc_query.specs.Trees.{expr_tree, cond_tree, sum, difference, product, minus, either, both, negation};

use smc_query::{Cond, Expr};
use smc_words::NoMemory;
use std::alloc::Global;

/// Two expressions, added.
pub fn sum_of(alloc: Global, left: Expr, right: Expr) -> Result<Expr, NoMemory>
    ensures { IfOk result (λ node. expr_tree node ≡ sum (expr_tree left) (expr_tree right)) }
{
    Ok(Expr::Add(Box::new(alloc, left)?, Box::new(alloc, right)?))
}

/// Two expressions, the second taken from the first.
pub fn difference_of(alloc: Global, left: Expr, right: Expr) -> Result<Expr, NoMemory>
    ensures { IfOk result (λ node. expr_tree node ≡ difference (expr_tree left) (expr_tree right)) }
{
    Ok(Expr::Sub(Box::new(alloc, left)?, Box::new(alloc, right)?))
}

/// Two expressions, multiplied.
pub fn product_of(alloc: Global, left: Expr, right: Expr) -> Result<Expr, NoMemory>
    ensures { IfOk result (λ node. expr_tree node ≡ product (expr_tree left) (expr_tree right)) }
{
    Ok(Expr::Mul(Box::new(alloc, left)?, Box::new(alloc, right)?))
}

/// An expression, taken from nothing.
pub fn minus_of(alloc: Global, of: Expr) -> Result<Expr, NoMemory>
    ensures { IfOk result (λ node. expr_tree node ≡ minus (expr_tree of)) }
{
    Ok(Expr::Minus(Box::new(alloc, of)?))
}

/// Either of two conditions.
pub fn either_of(alloc: Global, left: Cond, right: Cond) -> Result<Cond, NoMemory>
    ensures { IfOk result (λ node. cond_tree node ≡ either (cond_tree left) (cond_tree right)) }
{
    Ok(Cond::Or(Box::new(alloc, left)?, Box::new(alloc, right)?))
}

/// Both of two conditions.
pub fn both_of(alloc: Global, left: Cond, right: Cond) -> Result<Cond, NoMemory>
    ensures { IfOk result (λ node. cond_tree node ≡ both (cond_tree left) (cond_tree right)) }
{
    Ok(Cond::And(Box::new(alloc, left)?, Box::new(alloc, right)?))
}

/// A condition, turned round.
pub fn negation_of(alloc: Global, of: Cond) -> Result<Cond, NoMemory>
    ensures { IfOk result (λ node. cond_tree node ≡ negation (cond_tree of)) }
{
    Ok(Cond::Not(Box::new(alloc, of)?))
}
