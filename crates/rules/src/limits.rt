// The limits of a rule book, the numbers that mark its pairs, and those of the operations, each named once.

// Words of a rule book.
pub const MOST_WORDS: usize = 16384;

pub const MOST_RULES: u32 = 64;

// The table of where the rules stand: one entry for each that a book may have.
pub const STARTS: usize = 64;

pub const MOST_PARAMETERS: u32 = 4;

// Parts of a rule.
pub const MOST_PARTS: u32 = 8;

// Pairs of a pattern or a replacement.
pub const MOST_PAIRS: u32 = 128;

// Variables of a rule.
pub const MOST_VARIABLES: usize = 16;

// Applications of a chain.
pub const MOST_APPLICATIONS: u32 = 4;

// The bits of a rule's map, each of which announces a field.
pub const REACH: u32 = 0;

pub const PARAMETERS: u32 = 1;

pub const PARTS: u32 = 2;

pub const REPLACEMENT: u32 = 3;

// The first word of a pair that is no node: a new variable, a variable that is there, a chain of applications.
pub const MARK_NEW: u32 = 64;

pub const MARK_VARIABLE: u32 = 65;

pub const MARK_CHAIN: u32 = 66;

// The operations that a replacement applies, those among them without an argument, and those that a condition applies.
pub const FIRST_OPERATION: u32 = 1000;

pub const FIRST_BARE: u32 = 1004;

pub const LAST_OPERATION: u32 = 1005;

pub const FIRST_TEST: u32 = 1008;

pub const LAST_TEST: u32 = 1009;

// The operations on sequences: join is the first, extract the last.
pub const JOIN: u32 = 1010;

pub const SELECT: u32 = 1011;

pub const HEAD: u32 = 1012;

pub const TAIL: u32 = 1013;

pub const COUNT: u32 = 1014;

pub const EXTRACT: u32 = 1015;
