//! The limits in numbers. The function does nothing; its contract is the law.

ghost use Rattle.std.specs.Prelude.{◌≡◌};

use crate::chunk_limits::{MAX_CONTENT_BYTES, MAX_EXTENSION_BYTES, MAX_SIZE_DIGITS};
use crate::limits::MAX_LENGTH_DIGITS;

/// The limits of this crate are these numbers.
pub fn limits_are_these()
    ensures max_length_digits { MAX_LENGTH_DIGITS ≡ 15 }
    ensures max_size_digits { MAX_SIZE_DIGITS ≡ 16 }
    ensures max_extension_bytes { MAX_EXTENSION_BYTES ≡ 256 }
    ensures max_content_bytes { MAX_CONTENT_BYTES ≡ 8_388_608 }
{}
