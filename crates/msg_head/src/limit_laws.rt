//! The limits in numbers. The function does nothing; its contract is the law.

ghost use Rattle.std.specs.Prelude.{◌≡◌};

use crate::limits::{MAX_HEAD_BYTES, MAX_HEAD_LINES};

/// The limits of this crate are these numbers.
pub fn limits_are_these()
    ensures max_head_bytes { MAX_HEAD_BYTES ≡ 65_536 }
    ensures max_head_lines { MAX_HEAD_LINES ≡ 256 }
{}
