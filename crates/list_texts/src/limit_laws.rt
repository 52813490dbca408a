//! The limits in numbers. The function does nothing; its contract is the law.

ghost use Rattle.std.specs.Prelude.{◌≡◌};

use crate::limits::MAX_FIELD_BYTES;

/// The limits of this crate are these numbers.
pub fn limits_are_these()
    ensures max_field_bytes { MAX_FIELD_BYTES ≡ 65_536 }
{}
