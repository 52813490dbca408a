//! What a head, and a trailer section, may have at most.

/// How many bytes a head may have, and a trailer section, the empty line at its end included.
pub const MAX_HEAD_BYTES: usize = 65_536;

/// How many field lines a head may have, and a trailer section.
pub const MAX_HEAD_LINES: usize = 256;
