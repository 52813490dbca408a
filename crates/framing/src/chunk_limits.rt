//! What chunks may have at most.

/// How many hexadecimal digits the size of a chunk may have, leading zeros among them.
pub const MAX_SIZE_DIGITS: usize = 16;

/// How many bytes a chunk extension may have, its first byte (`;`, SP or HTAB) included.
pub const MAX_EXTENSION_BYTES: usize = 256;

/// How many bytes content may have, chunks taken off, whatever says where it ends.
pub const MAX_CONTENT_BYTES: usize = 8_388_608;
