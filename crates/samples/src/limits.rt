//! What is fixed of a sample.

/// How many bytes the content of a sample's request has.
pub const CONTENT_BYTES: u64 = 100_000;

/// The moment at which a sample is signed and judged, in seconds since the epoch.
pub const MOMENT: u64 = 1_618_884_473;

/// How many header lines the signed request of a sample has.
pub const SIGNED_LINES: u64 = 6;
