//! Expressions: their paths placed among the leaves, and their operands tested.
ghost use Rattle.std.specs.Prelude.{◌≡◌, IsTrue, IfOk};
ghost use Rattle.smc_query.specs.Trees.{expr_tree, path_tree};
ghost use Rattle.smc_plan.specs.Answers.{Answers};
ghost use Rattle.smc_plan.specs.Bounds.{is_within};
ghost use Rattle.smc_plan.specs.Typed.{kinded_tree};
ghost use Rattle.smc_plan.specs.Planning.{made};
ghost use Rattle.smc_plan.specs.Exprs as exprs;
ghost use Rattle.smc_plan.specs.Exprs.{typed_expr};

use crate::kind::{DAY_BOUND, added, bounded_number, kind_of, multiplied, negated};
use crate::path::leaf_of;
use crate::typed::{difference_of, minus_of, product_of, sum_of};
use crate::{Kind, Kinded, Leaves, PlanFault, Typed};
use smc_query::{Expr, Path};
use smc_tokens::Quoted;
use smc_types::{Catalog, day_of_date};
use smc_words::NoMemory;
use std::alloc::Global;

fn number_typed(units: u64, decimals: u32) -> Result<Kinded, PlanFault>
    ensures gives { Answers kinded_tree result (exprs.number_typed units decimals) }
    ensures within { IfOk result (λ made. IsTrue (is_within made.kind)) }
{
    let kind = bounded_number(decimals, Some(u128::from(units)))?;
    Ok(Kinded {
        typed: Typed::Number {
            units,
            scale: decimals,
        },
        kind,
    })
}

fn day_typed(year: u32, month: u32, day: u32) -> Result<Kinded, PlanFault>
    ensures gives { Answers kinded_tree result (exprs.day_typed year month day) }
    ensures within { IfOk result (λ made. IsTrue (is_within made.kind)) }
{
    match day_of_date(year, month, day) {
        Some(day) => Ok(Kinded {
            typed: Typed::Day(day),
            kind: Kind::Day { bound: DAY_BOUND },
        }),
        None => Err(PlanFault::Types),
    }
}

fn text_typed(alloc: Global, text: &Quoted) -> Result<Kinded, NoMemory>
    ensures gives { IfOk result (λ made. kinded_tree made ≡ exprs.text_typed text.now) }
    ensures within { IfOk result (λ made. IsTrue (is_within made.kind)) }
{
    Ok(Kinded {
        typed: Typed::Text(text.copied(alloc)?),
        kind: Kind::Text,
    })
}

// A path, whose leaf is placed among the others.
fn field_typed(
    alloc: Global,
    catalog: &Catalog,
    table: u32,
    leaves: &mut Leaves,
    path: &Path,
) -> Result<Kinded, PlanFault>
    ensures gives { Answers (λ field. made leaves.new (kinded_tree field)) result
        (exprs.field_typed catalog.now table (path_tree path.now) leaves.old) }
    ensures within { IfOk result (λ made. IsTrue (is_within made.kind)) }
{
    let leaf = leaf_of(alloc, catalog, table, path)?;
    let kind = kind_of(leaf.kind);
    let place = leaves.place(leaf)?;
    Ok(Kinded {
        typed: Typed::Leaf(place),
        kind,
    })
}

fn sum_typed(alloc: Global, left: Kinded, right: Kinded) -> Result<Kinded, PlanFault>
    requires left { IsTrue (is_within left.kind) }
    requires right { IsTrue (is_within right.kind) }
    ensures gives { Answers kinded_tree result (exprs.sum_typed (kinded_tree left) (kinded_tree right)) }
    ensures within { IfOk result (λ made. IsTrue (is_within made.kind)) }
{
    let kind = added(left.kind, right.kind)?;
    let typed = sum_of(alloc, left.typed, right.typed)?;
    Ok(Kinded { typed, kind })
}

fn difference_typed(alloc: Global, left: Kinded, right: Kinded) -> Result<Kinded, PlanFault>
    requires left { IsTrue (is_within left.kind) }
    requires right { IsTrue (is_within right.kind) }
    ensures gives { Answers kinded_tree result (exprs.difference_typed (kinded_tree left) (kinded_tree right)) }
    ensures within { IfOk result (λ made. IsTrue (is_within made.kind)) }
{
    let kind = added(left.kind, right.kind)?;
    let typed = difference_of(alloc, left.typed, right.typed)?;
    Ok(Kinded { typed, kind })
}

fn product_typed(alloc: Global, left: Kinded, right: Kinded) -> Result<Kinded, PlanFault>
    requires left { IsTrue (is_within left.kind) }
    requires right { IsTrue (is_within right.kind) }
    ensures gives { Answers kinded_tree result (exprs.product_typed (kinded_tree left) (kinded_tree right)) }
    ensures within { IfOk result (λ made. IsTrue (is_within made.kind)) }
{
    let kind = multiplied(left.kind, right.kind)?;
    let typed = product_of(alloc, left.typed, right.typed)?;
    Ok(Kinded { typed, kind })
}

fn minus_typed(alloc: Global, of: Kinded) -> Result<Kinded, PlanFault>
    requires { IsTrue (is_within of.kind) }
    ensures gives { Answers kinded_tree result (exprs.minus_typed (kinded_tree of)) }
    ensures within { IfOk result (λ made. IsTrue (is_within made.kind)) }
{
    let kind = negated(of.kind)?;
    let typed = minus_of(alloc, of.typed)?;
    Ok(Kinded { typed, kind })
}

/// An expression over rows of a table. Its leaves are placed among the others.
pub(crate) fn typed_expr(
    alloc: Global,
    catalog: &Catalog,
    table: u32,
    leaves: &mut Leaves,
    expr: &Expr,
) -> Result<Kinded, PlanFault>
    ensures gives { Answers (λ typed. made leaves.new (kinded_tree typed)) result
        (typed_expr catalog.now table (expr_tree expr.now) leaves.old) }
    ensures within { IfOk result (λ typed. IsTrue (is_within typed.kind)) }
{
    match expr {
        Expr::Number { units, decimals } => number_typed(*units, *decimals),
        Expr::Date { year, month, day } => day_typed(*year, *month, *day),
        Expr::Text(text) => Ok(text_typed(alloc, text)?),
        Expr::Field(path) => field_typed(alloc, catalog, table, leaves, path),
        Expr::Add(left, right) => {
            let left = typed_expr(alloc, catalog, table, leaves, left)?;
            let right = typed_expr(alloc, catalog, table, leaves, right)?;
            sum_typed(alloc, left, right)
        }
        Expr::Sub(left, right) => {
            let left = typed_expr(alloc, catalog, table, leaves, left)?;
            let right = typed_expr(alloc, catalog, table, leaves, right)?;
            difference_typed(alloc, left, right)
        }
        Expr::Mul(left, right) => {
            let left = typed_expr(alloc, catalog, table, leaves, left)?;
            let right = typed_expr(alloc, catalog, table, leaves, right)?;
            product_typed(alloc, left, right)
        }
        Expr::Minus(of) => {
            let of = typed_expr(alloc, catalog, table, leaves, of)?;
            minus_typed(alloc, of)
        }
    }
}
