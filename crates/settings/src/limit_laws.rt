//! The limits in numbers. The function does nothing; its contract is the law.

ghost use Rattle.std.specs.Prelude.{◌≡◌};

use crate::limits::{
    DAY_WINDOW, DEFAULT_MAX_AGE, DEFAULT_SKEW, MAX_AGE, MAX_EXPIRES_AFTER, MAX_KEY_BYTES,
    MAX_POLICIES, MAX_SKEW,
};

/// The limits of this crate are these numbers.
pub fn limits_are_these()
    ensures max_key_bytes { MAX_KEY_BYTES ≡ 1_024 }
    ensures max_expires_after { MAX_EXPIRES_AFTER ≡ 86_400 }
    ensures max_policies { MAX_POLICIES ≡ 16 }
    ensures max_age { MAX_AGE ≡ 604_800 }
    ensures day_window { DAY_WINDOW ≡ 86_400 }
    ensures max_skew { MAX_SKEW ≡ 3_600 }
    ensures default_max_age { DEFAULT_MAX_AGE ≡ 300 }
    ensures default_skew { DEFAULT_SKEW ≡ 60 }
{}
