// The limits of a grammar and of the values of its tokens, each named once.

// Words of a grammar.
pub const MOST_WORDS: usize = 4096;

pub const MOST_TYPES: u32 = 64;

pub const MOST_FORMS: u32 = 16;

pub const MOST_ELEMENTS: u32 = 8;

pub const FIRST_LITERAL: u32 = 65536;

pub const LAST_LITERAL: u32 = 131071;

pub const GREATEST_NAME: u32 = 65535;

// In hundredths.
pub const GREATEST_NUMBER: u32 = 4000000000;
