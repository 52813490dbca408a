//! The limits in numbers. The function does nothing; its contract is the law.

ghost use Rattle.std.specs.Prelude.{◌≡◌};

use crate::read_write::MAX_LIMIT;

/// The limits of this crate are these numbers.
pub fn limits_are_these()
    ensures max_limit { MAX_LIMIT ≡ 67_108_864 }
{}
