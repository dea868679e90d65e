//! How much a command may ask for.

/// How many advances of a `compact` may meet a section in the way before it gives up.
pub const COMPACT_TURNS: u32 = 1_000;
