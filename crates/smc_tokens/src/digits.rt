//! The number that digits spell.
ghost use Rattle.std.specs.Prelude.{◌≡◌, ◌+◌, ◌*◌, ◌^◌, ◌≤◌, true, length};
ghost use Rattle.std.specs.Char.{is_ascii_digit};
ghost use Rattle.std.specs.List.{list_all};
ghost use Rattle.std.specs.Str.Parse.{digits_value_after};

/// The number that the digits spell behind those of a number before them.
pub fn digits_onto(before: u64, digits: &[u8]) -> u64
    requires digits { list_all is_ascii_digit digits.now ≡ true }
    requires room { (before + 1) * 10 ^ length digits.now ≤ 10 ^ 16 }
    ensures value { result ≡ digits_value_after 10 before digits.now }
    ensures bound { result + 1 ≤ (before + 1) * 10 ^ length digits.now }
{
    let mut value = before;
    for digit in digits {
        value = value * 10 + u64::from(*digit - b'0');
    }
    value
}

/// Whether all bytes are digits.
pub fn are_digits(bytes: &[u8]) -> bool
    ensures { result ≡ list_all is_ascii_digit bytes.now }
{
    bytes.iter().all(|byte| byte.is_ascii_digit())
}
