//! The limits in numbers. The function does nothing; its contract is the law.

ghost use Rattle.std.specs.Prelude.{◌≡◌};

use crate::mac::TAG_BYTES;

/// The limits of this crate are these numbers.
pub fn limits_are_these()
    ensures tag_bytes { TAG_BYTES ≡ 32 }
{}
