//! What a recording, or the chain that it is, may have at most.

/// How many bytes a message or a script may have.
pub const MAX_ITEM_BYTES: usize = 16_777_216;

/// How many items a recording may have that is read item by item.
pub const MAX_ITEMS: usize = 1_000_000;

/// How many hops a chain may have.
pub const MAX_HOPS: usize = 64;
