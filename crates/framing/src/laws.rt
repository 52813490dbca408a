//! Laws of framings.

ghost use Rattle.framing.specs.Laws.{HasFramingAnswer, NoErrorWhereFramable, OneFramingError, IsLengthBounded};

/// A head is framable or has one error, and not both. The length of one that is framable is
/// bounded.
pub fn a_head_is_framable_or_has_one_error()
    ensures answer { HasFramingAnswer }
    ensures either { NoErrorWhereFramable }
    ensures one { OneFramingError }
    ensures bounded { IsLengthBounded }
{}
