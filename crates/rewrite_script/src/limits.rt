//! What scripts may have at most.

/// How many bytes a script may have.
pub const MAX_SCRIPT_BYTES: usize = 1_048_576;

/// How many lines a script may have.
pub const MAX_SCRIPT_LINES: usize = 256;

/// How many digits an index, an offset or a size may have.
pub const MAX_NUMBER_DIGITS: usize = 9;

/// How many blanks a line may write in one word.
pub const MAX_BLANKS: usize = 64;
