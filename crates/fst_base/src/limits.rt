/// How many bytes an input may have.
pub const MOST_BYTES: usize = 1_048_576;

/// How many bytes a name may have.
pub const LONGEST_NAME: usize = 255;

/// The greatest number that a literal may stand for.
pub const GREATEST_NUMBER: u64 = 9_223_372_036_854_775_807;

/// How deep a token may be nested.
pub const MOST_NESTED: u32 = 200;

/// How many nodes a type may have.
pub const MOST_NODES: u64 = 4096;

/// How many letters may stand on the right sides of a grammar's rules.
pub const MOST_LETTERS: u64 = 1_048_576;

/// What a norm that is greater is given as.
pub const GREATEST_NORM: u64 = 1 << 63;

/// How many channels a made module may have.
pub const MOST_MADE: u32 = 5000;

/// How many rewrites the decision of two normed words may make.
pub const MOST_REWRITES: u64 = 1_000_000;

/// How many pairs of words the search for the least difference of two normed words may list.
pub const MOST_LISTED: u32 = 1_000_000;
