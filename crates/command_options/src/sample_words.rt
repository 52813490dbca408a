//! The words of `sample`: a seed, and a number of hops.

ghost use Rattle.std.specs.Prelude.{ℕ, IfSome, IfNone};
ghost use Rattle.command_options.specs.Numbers.{is_number, IsCount, IsSeed};

use crate::options::{is_number, number_of};

/// The most digits of a seed.
pub const MAX_SEED_DIGITS: usize = 9;

/// The most digits of a number of hops.
pub const MAX_COUNT_DIGITS: usize = 2;

/// The most hops of a sample.
pub const MAX_SAMPLE_HOPS: usize = 64;

/// The seed that the word writes: 1 to 9 digits.
pub fn seed_of(word: &str) -> Option<u64>
    ensures some { IfSome result (IsSeed word.now) }
    ensures none { IfNone result ((seed : ℕ) → ¬ IsSeed word.now seed) }
{
    if !is_number(MAX_SEED_DIGITS, word.as_bytes()) {
        return None;
    }
    Some(number_of(word))
}

/// The number of hops that the word writes: 1 or 2 digits, and at most 64.
pub fn count_of(word: &str) -> Option<usize>
    ensures some { IfSome result (IsCount word.now) }
    ensures none { IfNone result ((count : ℕ) → ¬ IsCount word.now count) }
{
    if !is_number(MAX_COUNT_DIGITS, word.as_bytes()) {
        return None;
    }
    let count = number_of(word) as usize;
    if count > MAX_SAMPLE_HOPS {
        return None;
    }
    Some(count)
}
