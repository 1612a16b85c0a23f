// The sizes of what typing keeps, each named once.

pub const MOST_NESTING: u32 = 64;

// 128 pairs never make more due at once.
pub const MOST_DUES: usize = 1024;
