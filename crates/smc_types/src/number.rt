//! The numbers that a column can hold, and the words in which they stand.
ghost use Rattle.std.specs.Prelude.{◌≡◌, neg_ℤ, ◌≤ℤ◌, ◌<ℤ◌, ◌+ℤ◌};
ghost use Rattle.smc_types.specs.Numbers.{is_from, moved, moved_back, nearest};

/// The greatest Count. The least is 0.
pub const COUNT_MAX: i128 = 999_999_999_999;

/// The greatest Amount, in hundredths. The least is `-AMOUNT_MAX`.
pub const AMOUNT_MAX: i128 = 999_999_999_999;

/// The greatest Rate, in hundredths. The least is 0.
pub const RATE_MAX: i128 = 999;

/// The first day, 0000-01-01, in days from 1970-01-01.
pub const DAY_MIN: i32 = -719_528;

/// The last day, 9999-12-31, in days from 1970-01-01.
pub const DAY_MAX: i32 = 2_932_896;

/// What is added to an Amount, a Rate or a Day to make its word: 2^62.
pub const OFFSET: i128 = 0x4000_0000_0000_0000;

/// Whether the number lies between these two or is one of them.
pub(crate) fn is_from(least: i128, greatest: i128, number: i128) -> bool
    ensures { result ≡ is_from least greatest number }
{
    least <= number && number <= greatest
}

/// The word of an Amount, a Rate or a Day.
pub fn moved(number: i64) -> u64
    requires low { neg_ℤ OFFSET ≤ℤ number }
    requires high { number <ℤ OFFSET }
    ensures { result ≡ moved number }
{
    (number + OFFSET as i64) as u64
}

/// The number whose word this is.
pub(crate) fn moved_back(word: u64) -> i128
    ensures { result ≡ moved_back word }
{
    i128::from(word) - OFFSET
}

/// The number itself where it lies between these two, and else the one that is nearer.
pub(crate) fn nearest(least: i128, greatest: i128, number: i128) -> i128
    requires { least ≤ℤ greatest }
    ensures nearest { result ≡ nearest least greatest number }
    ensures least { least ≤ℤ result }
    ensures greatest { result ≤ℤ greatest }
{
    number.clamp(least, greatest)
}
