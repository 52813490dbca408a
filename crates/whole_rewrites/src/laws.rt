//! Laws of rewritings of the whole message. Each function does nothing; its contract is the law.

ghost use Rattle.whole_rewrites.specs.Laws.{GivenByMessages, GivesKindOfWhole, GivesOneWhole, GivesWholeOrNot, IsSameWhereContentPermitted, PermitsWholeOrNot, PermittedByMessages};

/// A rewriting of the whole message that a line can write gives one message, of the same kind, or
/// isn't applicable. That is said of the messages, and of some kinds of what is configured too.
pub fn a_whole_rewriting_gives_one_message()
    ensures one { GivesOneWhole }
    ensures some { GivesWholeOrNot }
    ensures kind { GivesKindOfWhole }
    ensures depends { GivenByMessages }
{}

/// A signature permits a rewriting of the whole message or not. That is said of the messages, and
/// of some kinds of the configured scheme and kinds of fields too.
pub fn a_whole_rewriting_is_permitted_or_not()
    ensures decided { PermitsWholeOrNot }
    ensures depends { PermittedByMessages }
{}

/// Content that is sent in another way, where a signature permits it, leaves a message that is the
/// same for the signature.
pub fn content_sent_in_another_way_is_the_same()
    ensures { IsSameWhereContentPermitted }
{}
