//! Laws of signature bases. The function does nothing; its contract is the law.

ghost use Rattle.signatures.specs.BaseLaws.{HasOneReading};

/// A signature base whose values have no LF is equal to another exactly where their signature
/// parameters and their values are: a base says what was signed (RFC 9421 section 7.5.5).
pub fn a_base_has_one_reading()
    ensures { HasOneReading }
{}
