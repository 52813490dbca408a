//! The limits in numbers. The function does nothing; its contract is the law.

ghost use Rattle.std.specs.Prelude.{◌≡◌};

use crate::options::MAX_MOMENT_DIGITS;
use crate::sample_words::{MAX_COUNT_DIGITS, MAX_SAMPLE_HOPS, MAX_SEED_DIGITS};

/// The limits of this crate are these numbers.
pub fn limits_are_these()
    ensures max_moment_digits { MAX_MOMENT_DIGITS ≡ 15 }
    ensures max_seed_digits { MAX_SEED_DIGITS ≡ 9 }
    ensures max_count_digits { MAX_COUNT_DIGITS ≡ 2 }
    ensures max_sample_hops { MAX_SAMPLE_HOPS ≡ 64 }
{}
