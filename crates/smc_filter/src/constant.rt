//! Expressions that have one value in every row.
ghost use Rattle.std.specs.Prelude.{◌≡◌, ℕ, pos, List, IfSome};
ghost use Rattle.smc_plan.specs.Typed.{typed_tree};
ghost use Rattle.smc_plan.specs.declared.leaf.Leaf.{Leaf};
ghost use Rattle.smc_meaning.specs.Values.{less, negative, number, plus, value_of};
ghost use Rattle.smc_filter.specs.Constants.{cell_of_constant};

use smc_plan::Typed;

/// A value that is the same in every row.
#[derive(Clone, Copy, Debug)]
pub(crate) enum Constant {
    /// So many units, of which ten to the power of `scale` make one.
    Number { units: i64, scale: u32 },
    /// Days from 1970-01-01.
    Day(i64),
}

// A number, where it fits 64 bits.
fn number(units: u64, scale: u32) -> Option<Constant>
    ensures { IfSome result (λ made. cell_of_constant made ≡ number (pos units) scale) }
{
    if units <= i64::MAX as u64 {
        Some(Constant::Number {
            units: units as i64,
            scale,
        })
    } else {
        None
    }
}

// A number taken from nothing.
fn negative(of: Constant) -> Option<Constant>
    ensures { IfSome result (λ made. cell_of_constant made ≡ negative (cell_of_constant of)) }
{
    match of {
        Constant::Number { units, scale } => Some(Constant::Number {
            units: units.checked_neg()?,
            scale,
        }),
        Constant::Day(_) => None,
    }
}

// A day, moved on by so many days.
fn later(from: Constant, days: Constant) -> Option<Constant>
    ensures { IfSome result (λ made. cell_of_constant made ≡ plus (cell_of_constant from) (cell_of_constant days)) }
{
    match (from, days) {
        (Constant::Day(day), Constant::Number { units, .. }) => {
            Some(Constant::Day(day.checked_add(units)?))
        }
        _ => None,
    }
}

// A day, moved back by so many days.
fn earlier(from: Constant, days: Constant) -> Option<Constant>
    ensures { IfSome result (λ made. cell_of_constant made ≡ less (cell_of_constant from) (cell_of_constant days)) }
{
    match (from, days) {
        (Constant::Day(day), Constant::Number { units, .. }) => {
            Some(Constant::Day(day.checked_sub(units)?))
        }
        _ => None,
    }
}

/// The value of an expression, where it is a number that is written out, or a day and so many days: where it fits 64 bits.
pub(crate) fn constant_of(expr: &Typed) -> Option<Constant>
    ensures { IfSome result (λ constant. (leaves : List Leaf) (words : List ℕ) → value_of leaves (typed_tree expr.now) words ≡ cell_of_constant constant) }
{
    match expr {
        Typed::Number { units, scale } => number(*units, *scale),
        Typed::Day(days) => Some(Constant::Day(i64::from(*days))),
        Typed::Minus(of) => negative(constant_of(of)?),
        Typed::Add(left, right) => later(constant_of(left)?, constant_of(right)?),
        Typed::Sub(left, right) => earlier(constant_of(left)?, constant_of(right)?),
        Typed::Text(_) | Typed::Leaf(_) | Typed::Mul(_, _) => None,
    }
}
