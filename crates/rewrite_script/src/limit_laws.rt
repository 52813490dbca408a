//! The limits in numbers. The function does nothing; its contract is the law.

ghost use Rattle.std.specs.Prelude.{◌≡◌};

use crate::limits::{MAX_BLANKS, MAX_NUMBER_DIGITS, MAX_SCRIPT_BYTES, MAX_SCRIPT_LINES};

/// The limits of this crate are these numbers.
pub fn limits_are_these()
    ensures max_script_bytes { MAX_SCRIPT_BYTES ≡ 1_048_576 }
    ensures max_script_lines { MAX_SCRIPT_LINES ≡ 256 }
    ensures max_number_digits { MAX_NUMBER_DIGITS ≡ 9 }
    ensures max_blanks { MAX_BLANKS ≡ 64 }
{}
