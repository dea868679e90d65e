/// How many bytes the name of a file has at most.
pub const MAX_FILE: usize = 255;

/// How many digits the number of a room has at most.
pub const MAX_DIGITS: usize = 9;

/// How many slots a room has at most, 2^28.
pub const MAX_SLOTS: u32 = 268_435_456;

/// How many bytes the name of an object has at most.
pub const MAX_NAME: usize = 16;

/// How many workers a group has at most: one pass of a region is not a worker's.
pub const MAX_WORKERS: usize = 31;

/// The byte that may stand in a name beside letters and digits.
pub const UNDERSCORE: u8 = b'_';
