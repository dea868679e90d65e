/// Bytes of a query text at most.
pub const MAX_TEXT: usize = 1_024;
