//! What a book of nonces may have at most.

/// How many entries a book may hold.
pub const MAX_ENTRIES: usize = 65_536;

/// How many seconds after the moment of a book its entries may live: a week.
pub const MAX_WINDOW: u64 = 604_800;

/// How many seconds an hour has.
pub const SECONDS_PER_HOUR: u64 = 3_600;

/// In how many hours the entries of a book may die: in that of its moment, and in those that begin
/// before a week has passed.
pub const MAX_HOURS: u64 = 169;

/// How many bytes the keyid of an entry may have.
pub const MAX_KEYID_BYTES: usize = 64;

/// How many bytes the nonce of an entry may have.
pub const MAX_NONCE_BYTES: usize = 256;

/// The latest moment, in seconds since the epoch: 15 digits, as an Integer has them (RFC 9651
/// section 3.3.1).
pub const MAX_MOMENT: u64 = 999_999_999_999_999;
