//! Numbers of 64 bits, one for each of some places of a batch.
ghost use Rattle.std.specs.Prelude.{◌≡◌, ◌++◌, ◌∷◌, [], ◌<◌, ◌≤◌, ◌*◌, ◌^◌, ◌≤ℤ◌, ◌<ℤ◌, neg_ℤ, pos, length, replicate, unsigned_abs, IfSome};
ghost use Rattle.smc_kernel.specs.Columns.{all_of, pairs, reckoned};
ghost use Rattle.smc_kernel.specs.declared.batch.TheConstants.{ROOM};

use crate::batch::ROOM;
use std::marker::Model;

/// At most 64 numbers. Contracts see the list.
#[derive(Debug, Drop)]
pub(crate) struct Units {
    cells: [i64; ROOM],
    count: usize,
}

impl Model for Units {
    ghost use Rattle.std.specs.Prelude.{List, ℤ, take, ◌≤◌};
    ghost use Rattle.smc_kernel.specs.declared.batch.TheConstants.{ROOM};

    ghost Value = { List ℤ };

    ghost view = { λ units. take units.count units.cells };

    ghost invariant = { λ units. units.count ≤ ROOM };
}

/// What is done with two numbers: they are added or taken from one another, each times a factor, or multiplied.
#[derive(Clone, Copy, Debug)]
pub(crate) enum Reckoning {
    Plus { left: i64, right: i64 },
    Less { left: i64, right: i64 },
    Times,
}

impl Units {
    /// No numbers.
    pub(crate) fn new() -> Units
        ensures { result ≡ [] }
    {
        Units {
            cells: [0; ROOM],
            count: 0,
        }
    }

    /// The same number so many times.
    pub(crate) fn repeated(unit: i64, count: usize) -> Units
        requires { count ≤ ROOM }
        ensures { result ≡ replicate count unit }
    {
        let mut units = Units::new();
        for _ in 0..count {
            units.push(unit);
        }
        units
    }

    /// All of them.
    #[inline(always)]
    pub(crate) fn as_slice(&self) -> &[i64]
        ensures units { result.now ≡ self.now }
        ensures few { length self.now ≤ ROOM }
    {
        let (front, _) = self.cells.split_at(self.count);
        front
    }

    /// Puts a number behind the others.
    #[inline(always)]
    pub(crate) fn push(&mut self, unit: i64)
        requires { length self.old < ROOM }
        ensures { self.new ≡ self.old ++ unit ∷ [] }
    {
        self.cells[self.count] = unit;
        self.count += 1;
    }
}

// What comes of two numbers, where it fits 64 bits.
#[inline(always)]
fn reckon(step: Reckoning, one: i64, other: i64) -> Option<i64>
    ensures made { IfSome result (λ made. made ≡ reckoned step one other) }
    ensures low { IfSome result (λ made. neg_ℤ (pos (2 ^ 63)) ≤ℤ made) }
    ensures high { IfSome result (λ made. made <ℤ pos (2 ^ 63)) }
{
    match step {
        Reckoning::Plus { left, right } => {
            let one = one.checked_mul(left)?;
            let other = other.checked_mul(right)?;
            one.checked_add(other)
        }
        Reckoning::Less { left, right } => {
            let one = one.checked_mul(left)?;
            let other = other.checked_mul(right)?;
            one.checked_sub(other)
        }
        Reckoning::Times => one.checked_mul(other),
    }
}

/// What comes of each two numbers, where all fit 64 bits.
pub(crate) fn reckon_all(step: Reckoning, ones: &[i64], others: &[i64]) -> Option<Units>
    requires same { length ones.now ≡ length others.now }
    requires few { length ones.now ≤ ROOM }
    ensures made { IfSome result (λ made. made ≡ pairs (reckoned step) ones.now others.now) }
    ensures many { IfSome result (λ made. length made ≡ length ones.now) }
{
    let mut made = Units::new();
    for i in 0..ones.len() {
        made.push(reckon(step, ones[i], others[i])?);
    }
    Some(made)
}

/// All of them together.
pub(crate) fn total_of(units: &[i64]) -> i128
    requires { length units.now ≤ ROOM }
    ensures total { result ≡ all_of units.now }
    ensures small { unsigned_abs result ≤ length units.now * 2 ^ 63 }
{
    let mut total = 0;
    for unit in units {
        total += i128::from(*unit);
    }
    total
}
