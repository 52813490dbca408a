//! What a message may have at most.

/// How many bytes a message may have, all of them, chunk lines and the trailer section included.
pub const MAX_MESSAGE_BYTES: usize = 16_777_216;
