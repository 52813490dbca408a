//! Laws of normal messages and of explanations. Each function does nothing; its contract is the
//! law.

ghost use Rattle.normal_forms.specs.Laws.{AreAlikeWhereAgreed, HasExplanationOrFault, HasOneExplainFault, HasOneExplanation, HasOneNormalForm, HasSomeNormalForm, LeadToNormal, StaysNormal};

/// The steps that make a message normal are applicable and permitted. A normal message has none.
/// Two records of one message have normal messages that are alike exactly where they agree on all
/// that is covered.
pub fn explanations_are_sound()
    ensures lead { LeadToNormal }
    ensures normal { StaysNormal }
    ensures alike { AreAlikeWhereAgreed }
{}

/// A message has one list of steps that make it normal for a signature, and one normal message.
pub fn a_message_has_one_normal_form()
    ensures one { HasOneNormalForm }
    ensures some { HasSomeNormalForm }
{}

/// Two messages have one explanation for a label, or one fault for which they have none.
pub fn explanations_are_decided()
    ensures one { HasOneExplanation }
    ensures fault { HasOneExplainFault }
    ensures some { HasExplanationOrFault }
{}
