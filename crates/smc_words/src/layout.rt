/// The word of a field that holds nothing yet: every bit is set. No field word of an object equals it.
pub const BLANK: u64 = u64::MAX;

/// What epochs stay below, 2^36: bounds and stamps, and with them each payload.
pub const EPOCHS: u64 = 68_719_476_736;

/// What incarnations stay below, 2^24.
pub const INCARNATIONS: u32 = 16_777_216;

/// What the indices of entries stay below, 2^28.
pub const ENTRIES: u32 = 268_435_456;

/// What the indices of collections stay below, 2^8.
pub const COLLECTIONS: u32 = 256;

/// What the indices of passes stay below, 2^5.
pub const PASSES: u32 = 32;
