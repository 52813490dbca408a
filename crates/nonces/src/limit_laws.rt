//! The limits in numbers. The function does nothing; its contract is the law.

ghost use Rattle.std.specs.Prelude.{◌≡◌};

use crate::limits::{
    MAX_ENTRIES, MAX_HOURS, MAX_KEYID_BYTES, MAX_MOMENT, MAX_NONCE_BYTES, MAX_WINDOW,
    SECONDS_PER_HOUR,
};

/// The limits of this crate are these numbers.
pub fn limits_are_these()
    ensures max_entries { MAX_ENTRIES ≡ 65_536 }
    ensures max_window { MAX_WINDOW ≡ 604_800 }
    ensures seconds_per_hour { SECONDS_PER_HOUR ≡ 3_600 }
    ensures max_hours { MAX_HOURS ≡ 169 }
    ensures max_keyid_bytes { MAX_KEYID_BYTES ≡ 64 }
    ensures max_nonce_bytes { MAX_NONCE_BYTES ≡ 256 }
    ensures max_moment { MAX_MOMENT ≡ 999_999_999_999_999 }
{}
