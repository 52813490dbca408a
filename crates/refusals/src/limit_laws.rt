//! The limits in numbers. The function does nothing; its contract is the law.

ghost use Rattle.std.specs.Prelude.{◌≡◌};

use crate::refusal::{MAX_CONF_BYTES, MAX_INPUT_BYTES, MAX_RECORDING_BYTES};

/// The limits of this crate are these numbers.
pub fn limits_are_these()
    ensures max_input_bytes { MAX_INPUT_BYTES ≡ 16_777_216 }
    ensures max_recording_bytes { MAX_RECORDING_BYTES ≡ 67_108_864 }
    ensures max_conf_bytes { MAX_CONF_BYTES ≡ 65_536 }
{}
