//! Numbers with decimals, and their sums and products.
ghost use Rattle.std.specs.Prelude.{◌≡◌, ◌<◌, ◌≤◌, ◌-◌, ◌*◌, ◌^◌, pos, ◌*ℤ◌, unsigned_abs};
ghost use Rattle.smc_plan.specs.declared.kind.TheConstants.{MAX_SCALE, SIZE_LIMIT};
ghost use Rattle.smc_meaning.specs.Comparing.{compare};
ghost use Rattle.smc_meaning.specs.Values.{less, negative, plus, times, units_at};
ghost use Rattle.smc_meaning.specs.Decimals.{CanAdd, CanMeet, CanMultiply, decimal_cell, size_at};

use std::cmp::Ordering;

/// So many units, of which ten to the power of `scale` make one.
#[derive(Clone, Copy, Debug)]
pub struct Decimal {
    pub units: i128,
    pub scale: u32,
}

/// Units, of which each becomes ten to this power.
pub(crate) fn widened(units: i128, power: u32) -> i128
    requires few { power ≤ MAX_SCALE }
    requires small { unsigned_abs units * 10 ^ power < 2 ^ 127 }
    ensures { result ≡ units *ℤ pos (10 ^ power) }
{
    units * i128::from(10u64.pow(power))
}

impl Decimal {
    /// The units, where the number is brought to a scale.
    pub(crate) fn units_at(self, scale: u32) -> i128
        requires larger { self.scale ≤ scale }
        requires few { scale ≤ MAX_SCALE }
        requires small { size_at scale self < SIZE_LIMIT }
        ensures { result ≡ units_at scale self.units self.scale }
    {
        widened(self.units, scale - self.scale)
    }

    /// The sum, at the larger scale.
    pub(crate) fn plus(self, other: Decimal) -> Decimal
        requires { CanAdd self other }
        ensures value { decimal_cell result ≡ plus (decimal_cell self) (decimal_cell other) }
        ensures small { unsigned_abs result.units < SIZE_LIMIT }
    {
        let scale = self.scale.max(other.scale);
        Decimal {
            units: self.units_at(scale) + other.units_at(scale),
            scale,
        }
    }

    /// The difference, at the larger scale.
    pub(crate) fn less(self, other: Decimal) -> Decimal
        requires { CanAdd self other }
        ensures value { decimal_cell result ≡ less (decimal_cell self) (decimal_cell other) }
        ensures small { unsigned_abs result.units < SIZE_LIMIT }
    {
        let scale = self.scale.max(other.scale);
        Decimal {
            units: self.units_at(scale) - other.units_at(scale),
            scale,
        }
    }

    /// The product, with the decimals of both.
    pub(crate) fn times(self, other: Decimal) -> Decimal
        requires { CanMultiply self other }
        ensures value { decimal_cell result ≡ times (decimal_cell self) (decimal_cell other) }
        ensures small { unsigned_abs result.units < SIZE_LIMIT }
    {
        Decimal {
            units: self.units * other.units,
            scale: self.scale + other.scale,
        }
    }

    /// The number taken from nothing.
    pub(crate) fn negative(self) -> Decimal
        requires { unsigned_abs self.units < SIZE_LIMIT }
        ensures { decimal_cell result ≡ negative (decimal_cell self) }
    {
        Decimal {
            units: -self.units,
            scale: self.scale,
        }
    }
    /// How two numbers compare.
    pub(crate) fn compare(self, other: Decimal) -> Ordering
        requires { CanMeet self other }
        ensures { result ≡ compare (decimal_cell self) (decimal_cell other) }
    {
        let scale = self.scale.max(other.scale);
        self.units_at(scale).cmp(&other.units_at(scale))
    }
}
