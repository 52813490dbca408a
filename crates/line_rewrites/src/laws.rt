//! Laws of rewritings of field lines. Each function does nothing; its contract is the law.

ghost use Rattle.line_rewrites.specs.Decisions.{GivesByLinesOrNot, PermitsLinesOrNot};
ghost use Rattle.line_rewrites.specs.Laws.{AreSizedOrNot, DependsOnMessagesByLines, GivesKindByLines, GivesOneByLines, HasOneSound, IsSameWhereLinesPermitted, IsSoundWhereRead};

/// A step that a line can write gives one message, of the same kind, or isn't applicable. That is
/// said of the messages alone.
pub fn a_line_step_gives_one_message()
    ensures one { GivesOneByLines }
    ensures some { GivesByLinesOrNot }
    ensures kind { GivesKindByLines }
    ensures depends { DependsOnMessagesByLines }
{}

/// A signature permits a step or not; what it permits is the same for it.
pub fn a_line_step_is_permitted_or_not()
    ensures decided { PermitsLinesOrNot }
    ensures same { IsSameWhereLinesPermitted }
{}

/// Whatever the limits, a text is that of one message with so much content.
pub fn a_text_has_one_sound_message()
    ensures is { IsSoundWhereRead }
    ensures one { HasOneSound }
    ensures sized { AreSizedOrNot }
{}
