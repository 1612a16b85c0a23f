// The limits of a tree, each named once.

// Words of a tree, two a node.
pub const MOST_WORDS: usize = 4096;

// Words of a slip, three a node.
pub const MOST_SLIP_WORDS: usize = 6144;

pub const MOST_NODES: usize = 2048;

pub const MOST_NESTING: usize = 64;
