//! Laws of heads, of trailer sections and of values.

ghost use Rattle.msg_head.specs.Laws.{OneHead, OneHeadOfText, NoHeadInPrefix, EndsAtFirstEnd, EachHasAHeadAnswer, OneHeadFault, NoFaultAtHead, NoHeadAnswerYet, OneTrailer, TrailerSectionIs, TrailerEndsAtFirstEnd, EachHasATrailerAnswer, OneTrailerFault, NoFaultAtTrailer, NoTrailerAnswerYet, RawHasOneValue, HasItsValueAfterSpace, KeepsOtherNames, CombinesFurtherLine};

/// The laws of heads: bytes begin with at most one head, a text is that of at most one head, no
/// head's text is a proper prefix of another's, and a head ends at the first CRLF CRLF.
pub fn bytes_begin_with_one_head()
    ensures one { OneHead }
    ensures text { OneHeadOfText }
    ensures prefix { NoHeadInPrefix }
    ensures end { EndsAtFirstEnd }
{}

/// Out of memory aside, the answer to bytes is one: they begin with a head, or its end may still
/// come, or they have one fault.
pub fn heads_have_one_answer()
    ensures some { EachHasAHeadAnswer }
    ensures fault { OneHeadFault }
    ensures head { NoFaultAtHead }
    ensures unfinished { NoHeadAnswerYet }
{}

/// Out of memory aside, the answer to bytes that are read as a trailer section is one: they begin
/// with one such section, which ends at its first empty line, or its end may still come, or they
/// have one fault.
pub fn trailers_have_one_answer()
    ensures one { OneTrailer }
    ensures section { TrailerSectionIs }
    ensures end { TrailerEndsAtFirstEnd }
    ensures some { EachHasATrailerAnswer }
    ensures fault { OneTrailerFault }
    ensures trailer { NoFaultAtTrailer }
    ensures unfinished { NoTrailerAnswerYet }
{}

/// The law of values: a line's raw value has one value, which is the texts of its pieces without
/// the blanks at their ends, those that are not empty, joined by one space.
pub fn a_line_has_one_value()
    ensures value { RawHasOneValue }
    ensures after_space { HasItsValueAfterSpace }
{}

/// The laws of lines that come after others: they keep the values of names that they don't have,
/// and the value of one more line comes last.
pub fn further_lines_keep_other_values()
    ensures others { KeepsOtherNames }
    ensures further { CombinesFurtherLine }
{}
