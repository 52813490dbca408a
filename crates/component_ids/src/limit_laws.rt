//! The limits in numbers. The function does nothing; its contract is the law.

ghost use Rattle.std.specs.Prelude.{◌≡◌};

use crate::params::MAX_COMPONENTS;

/// The limits of this crate are these numbers.
pub fn limits_are_these()
    ensures max_components { MAX_COMPONENTS ≡ 128 }
{}
