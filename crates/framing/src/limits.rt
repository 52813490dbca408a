//! What a length may have at most.

/// How many digits the value of a `Content-Length` line may have.
pub const MAX_LENGTH_DIGITS: usize = 15;
