//! The limits in numbers. The function does nothing; its contract is the law.

ghost use Rattle.std.specs.Prelude.{◌≡◌};

use crate::limits::{CONTENT_BYTES, MOMENT, SIGNED_LINES};

/// The limits of this crate are these numbers.
pub fn limits_are_these()
    ensures content_bytes { CONTENT_BYTES ≡ 100_000 }
    ensures moment { MOMENT ≡ 1_618_884_473 }
    ensures signed_lines { SIGNED_LINES ≡ 6 }
{}
