//! Limits of a configuration.

/// How many bytes a key has at most.
pub const MAX_KEY_BYTES: usize = 1_024;

/// How many seconds after its creation a signature expires at most: a day.
pub const MAX_EXPIRES_AFTER: u64 = 86_400;

/// How many policies a configuration has at most.
pub const MAX_POLICIES: usize = 16;

/// How many seconds after its creation a signature is taken at most: a week.
pub const MAX_AGE: u64 = 604_800;

/// How many seconds that is in version 1, together with twice the skew: a day.
pub const DAY_WINDOW: u64 = 86_400;

/// How many seconds two clocks are apart at most: an hour.
pub const MAX_SKEW: u64 = 3_600;

/// How many seconds after its creation a signature is taken, where nothing is said.
pub const DEFAULT_MAX_AGE: u64 = 300;

/// How many seconds two clocks may be apart, where nothing is said.
pub const DEFAULT_SKEW: u64 = 60;
