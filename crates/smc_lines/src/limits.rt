/// The byte that ends a line.
pub const NEWLINE: u8 = b'\n';

/// The byte between two words.
pub const SPACE: u8 = b' ';

/// The byte that a comment begins with.
pub const COMMENT: u8 = b'#';

/// The digit of value 0.
pub const ZERO_DIGIT: u8 = b'0';

/// How many bytes a line has at most, without its end.
pub const MAX_LINE: usize = 1024;

/// How many lines a text has at most.
pub const MAX_LINES: u64 = 100_000;
