//! Laws of raw values and of field lines. Each function does nothing; its contract is the laws.

ghost use Rattle.msg_body.specs.FieldLaws.{ForgetsSpacingAtEnds, TakesFoldForSpace, IsValueOfParts, HasNoBlankAtEnds, IsValueOfItself, IsValueOfJoined, TakesLineForOther, KeepsOtherNamesAround, ForgetsOrderOfNames, TakesLineForTwo};

/// The laws of raw values: what in one may change so that its value stays the same, and the values
/// of parts and of joined values.
pub fn raw_values_keep_their_value()
    ensures ends { ForgetsSpacingAtEnds }
    ensures fold { TakesFoldForSpace }
    ensures parts { IsValueOfParts }
    ensures blanks { HasNoBlankAtEnds }
    ensures itself { IsValueOfItself }
    ensures joined { IsValueOfJoined }
{}

/// The laws of lists of field lines: what in one may change so that the values of its names, or
/// their combined values, stay the same.
pub fn lists_of_lines_keep_their_values()
    ensures other { TakesLineForOther }
    ensures others { KeepsOtherNamesAround }
    ensures order { ForgetsOrderOfNames }
    ensures two { TakesLineForTwo }
{}
