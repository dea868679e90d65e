/// Brackets, parentheses, `not` and unary minus that may at most be open at one place of a text.
pub const MAX_OPEN: u32 = 64;
