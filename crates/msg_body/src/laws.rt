//! Laws of messages.

ghost use Rattle.msg_body.specs.Laws.{OneMessage, NoMessageInPrefix, OneMessageAt, EachHasAMessageAnswer, OneMessageFault, NoFaultAtMessage, NoMessageAnswerYet, OneWhole, OneFaultOfText, NoFaultOfWhole, IsWholeOrNot};

/// The laws of messages: bytes spell at most one message, and where a proper prefix of a message's
/// bytes spells one too, the content of both goes to the end.
pub fn bytes_spell_one_message()
    ensures one { OneMessage }
    ensures prefix { NoMessageInPrefix }
{}

/// Out of memory aside, the answer to bytes that are no more than a message may have is one: they
/// begin with a message of one length, or its end may still come, or they have one fault.
pub fn messages_have_one_answer()
    ensures at { OneMessageAt }
    ensures some { EachHasAMessageAnswer }
    ensures fault { OneMessageFault }
    ensures message { NoFaultAtMessage }
    ensures unfinished { NoMessageAnswerYet }
{}

/// A text that is no longer than a message may be is one whole message, or has one fault.
pub fn a_text_is_one_message_or_not()
    ensures one { OneWhole }
    ensures fault { OneFaultOfText }
    ensures none { NoFaultOfWhole }
    ensures either { IsWholeOrNot }
{}
