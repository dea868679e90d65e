//! What an expression is, and how large it may be.
ghost use Rattle.std.specs.Prelude.{◌≡◌, ℕ, ◌+◌, ◌≤◌, nat_lt, IsTrue, IfOk};
ghost use Rattle.smc_plan.specs.Bounds.{IsBound, added, are_narrow, bound_at, bounded, is_comparable, is_narrow_in, is_number, is_summable, is_taken_by, is_within, joined, kind_of, multiplied, negated};
ghost use Rattle.smc_plan.specs.declared.kind.Kind.TheVariants.{Number, Day as OfDay};

use crate::PlanFault;
use smc_types::{AMOUNT_MAX, COUNT_MAX, FieldType, RATE_MAX};

/// Decimals of a number at most.
pub const MAX_SCALE: u32 = 18;

/// Decimals of an Amount and of a Rate.
pub const HUNDREDTHS: u32 = 2;

/// No number has so many units: 2^96.
pub const SIZE_LIMIT: u128 = 0x1_0000_0000_0000_0000_0000_0000;

/// No number of which a sum or an average is taken has so many units: 2^68.
pub const SUM_LIMIT: u128 = 0x10_0000_0000_0000_0000;

/// No day is farther from 1970-01-01 than so many days.
pub const DAY_BOUND: u128 = 2_932_897;

/// How large a number may be: it has at most `bound` units, of which ten to the power of `scale` make one.
#[derive(Clone, Copy, Debug, PartialEq, Eq)]
pub struct Extent {
    pub scale: u32,
    pub bound: u128,
}

/// What an expression is.
#[derive(Clone, Copy, Debug, PartialEq, Eq)]
pub enum Kind {
    Number(Extent),
    /// At most so many days before or behind 1970-01-01.
    Day { bound: u128 },
    Text,
}

/// What the column of a leaf is.
pub(crate) fn kind_of(field: FieldType) -> Kind
    ensures kind { result ≡ kind_of field }
    ensures within { IsTrue (is_within result) }
{
    match field {
        FieldType::Count => Kind::Number(Extent {
            scale: 0,
            bound: COUNT_MAX.unsigned_abs(),
        }),
        FieldType::Amount => Kind::Number(Extent {
            scale: HUNDREDTHS,
            bound: AMOUNT_MAX.unsigned_abs(),
        }),
        FieldType::Rate => Kind::Number(Extent {
            scale: HUNDREDTHS,
            bound: RATE_MAX.unsigned_abs(),
        }),
        FieldType::Day => Kind::Day { bound: DAY_BOUND },
        FieldType::Text(_) => Kind::Text,
        FieldType::RefTo(_) => Kind::Text,
    }
}

/// A number of this extent, where it is within the limits. A bound that is none is more than a `u128` counts.
pub(crate) fn bounded_number(scale: u32, bound: Option<u128>) -> Result<Kind, PlanFault>
    ensures kind { (exact : ℕ) → IsBound bound exact
        → result ≡ bounded (Number (record { scale = scale; bound = exact })) }
    ensures within { IfOk result (λ kind. IsTrue (is_within kind)) }
{
    match bound {
        Some(bound) => {
            if scale <= MAX_SCALE && bound < SIZE_LIMIT {
                Ok(Kind::Number(Extent { scale, bound }))
            } else {
                Err(PlanFault::TooWide)
            }
        }
        None => Err(PlanFault::TooWide),
    }
}

// A day of this bound, where it is within the limit.
fn bounded_day(bound: u128) -> Result<Kind, PlanFault>
    ensures kind { result ≡ bounded (OfDay bound) }
    ensures within { IfOk result (λ kind. IsTrue (is_within kind)) }
{
    if bound < SIZE_LIMIT {
        Ok(Kind::Day { bound })
    } else {
        Err(PlanFault::TooWide)
    }
}

// The bound of a number that is brought to a scale.
fn bound_at(scale: u32, number: Extent) -> Option<u128>
    requires larger { number.scale ≤ scale }
    requires few { scale ≤ MAX_SCALE }
    ensures { IsBound result (bound_at scale number) }
{
    let power = 10u128.pow(scale - number.scale);
    number.bound.checked_mul(power)
}

// Whether a number that is brought to a scale is within the limit.
fn is_narrow_at(scale: u32, number: Extent) -> bool
    requires larger { number.scale ≤ scale }
    requires few { scale ≤ MAX_SCALE }
    ensures { result ≡ nat_lt (bound_at scale number) SIZE_LIMIT }
{
    match bound_at(scale, number) {
        Some(bound) => bound < SIZE_LIMIT,
        None => false,
    }
}

// The bound of a sum of two numbers that are brought to a scale.
fn sum_at(scale: u32, one: Extent, other: Extent) -> Option<u128>
    requires one_larger { one.scale ≤ scale }
    requires other_larger { other.scale ≤ scale }
    requires few { scale ≤ MAX_SCALE }
    ensures { IsBound result (bound_at scale one + bound_at scale other) }
{
    let left = bound_at(scale, one)?;
    let right = bound_at(scale, other)?;
    left.checked_add(right)
}

// The sum of two numbers.
fn joined(one: Extent, other: Extent) -> Result<Kind, PlanFault>
    requires one { one.scale ≤ MAX_SCALE }
    requires other { other.scale ≤ MAX_SCALE }
    ensures kind { result ≡ bounded (Number (joined one other)) }
    ensures within { IfOk result (λ kind. IsTrue (is_within kind)) }
{
    let scale = one.scale.max(other.scale);
    bounded_number(scale, sum_at(scale, one, other))
}

/// What a sum or a difference is.
pub(crate) fn added(one: Kind, other: Kind) -> Result<Kind, PlanFault>
    requires one { IsTrue (is_within one) }
    requires other { IsTrue (is_within other) }
    ensures kind { result ≡ added one other }
    ensures within { IfOk result (λ kind. IsTrue (is_within kind)) }
{
    match (one, other) {
        (Kind::Number(one), Kind::Number(other)) => joined(one, other),
        (Kind::Day { bound }, Kind::Number(days)) => {
            if days.scale == 0 {
                bounded_day(bound + days.bound)
            } else {
                Err(PlanFault::Types)
            }
        }
        _ => Err(PlanFault::Types),
    }
}

/// What a product is.
pub(crate) fn multiplied(one: Kind, other: Kind) -> Result<Kind, PlanFault>
    requires one { IsTrue (is_within one) }
    requires other { IsTrue (is_within other) }
    ensures kind { result ≡ multiplied one other }
    ensures within { IfOk result (λ kind. IsTrue (is_within kind)) }
{
    match (one, other) {
        (Kind::Number(one), Kind::Number(other)) => {
            let bound = one.bound.checked_mul(other.bound);
            bounded_number(one.scale + other.scale, bound)
        }
        _ => Err(PlanFault::Types),
    }
}

/// What a number taken from nothing is.
pub(crate) fn negated(kind: Kind) -> Result<Kind, PlanFault>
    requires { IsTrue (is_within kind) }
    ensures kind { result ≡ negated kind }
    ensures within { IfOk result (λ kind. IsTrue (is_within kind)) }
{
    match kind {
        Kind::Number(number) => Ok(Kind::Number(number)),
        _ => Err(PlanFault::Types),
    }
}

/// Whether an expression is a number.
pub(crate) fn is_number(kind: Kind) -> bool
    ensures { result ≡ is_number kind }
{
    matches!(kind, Kind::Number(_))
}

/// Whether a sum or an average can be taken of so many units.
pub(crate) fn is_summable(kind: Kind) -> bool
    ensures { result ≡ is_summable kind }
{
    match kind {
        Kind::Number(number) => number.bound < SUM_LIMIT,
        _ => true,
    }
}

/// Whether two expressions can be compared.
pub(crate) fn is_comparable(one: Kind, other: Kind) -> bool
    ensures { result ≡ is_comparable one other }
{
    match (one, other) {
        (Kind::Number(_), Kind::Number(_)) => true,
        (Kind::Day { .. }, Kind::Day { .. }) => true,
        (Kind::Text, Kind::Text) => true,
        _ => false,
    }
}

/// Whether two numbers are within the limit where both are brought to the larger of their scales.
pub(crate) fn are_narrow(one: Kind, other: Kind) -> bool
    requires one { IsTrue (is_within one) }
    requires other { IsTrue (is_within other) }
    ensures { result ≡ are_narrow one other }
{
    match (one, other) {
        (Kind::Number(one), Kind::Number(other)) => {
            let scale = one.scale.max(other.scale);
            is_narrow_at(scale, one) && is_narrow_at(scale, other)
        }
        _ => true,
    }
}

/// Whether a field takes such a value.
pub(crate) fn is_taken_by(field: Kind, value: Kind) -> bool
    ensures { result ≡ is_taken_by field value }
{
    match (field, value) {
        (Kind::Number(field), Kind::Number(value)) => value.scale <= field.scale,
        (Kind::Day { .. }, Kind::Day { .. }) => true,
        _ => false,
    }
}

/// Whether a number that a field takes is within the limit where it is brought to the field's scale.
pub(crate) fn is_narrow_in(field: Kind, value: Kind) -> bool
    requires within { IsTrue (is_within field) }
    requires taken { IsTrue (is_taken_by field value) }
    ensures { result ≡ is_narrow_in field value }
{
    match (field, value) {
        (Kind::Number(field), Kind::Number(value)) => is_narrow_at(field.scale, value),
        _ => true,
    }
}
