//! What a list of fields may have at most.

/// How many bytes the name of a field may have, and its value.
pub const MAX_FIELD_BYTES: usize = 65_536;
