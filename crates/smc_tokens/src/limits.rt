/// Bytes of a name at most.
pub const MAX_NAME: usize = 32;

/// Digits of a number before its point at most.
pub const MAX_DIGITS: usize = 12;

/// Digits of a number behind its point at most.
pub const MAX_DECIMALS: usize = 4;
