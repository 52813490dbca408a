//! Laws of what is signed. Each function does nothing; its contract is the law.

ghost use Rattle.signing.specs.Laws.{HasOneSignedMessage, HasOneSignFault, HasSignedMessageOrFault, HasOneSpec, HasSpec, HasOneListOfSpecs, HasOneWantFault, HasSpecsOrFault, IsVerifiableWhereSigned, IsValidWhereAsked, AreValidWhereWished};

/// A message is signed in one way, and can be verified then, or there is one fault that is the
/// first.
pub fn a_message_is_signed_or_has_a_fault()
    ensures one { HasOneSignedMessage }
    ensures one_fault { HasOneSignFault }
    ensures either { HasSignedMessageOrFault }
    ensures verifiable { IsVerifiableWhereSigned }
{}

/// A configuration asks for one signature, where it says what is signed.
pub fn a_configuration_asks_for_one_signature()
    ensures one { HasOneSpec }
    ensures some { HasSpec }
    ensures valid { IsValidWhereAsked }
{}

/// The wishes of a message are met in one way, or there is one fault that is the first.
pub fn wishes_are_met_or_have_a_fault()
    ensures one { HasOneListOfSpecs }
    ensures one_fault { HasOneWantFault }
    ensures either { HasSpecsOrFault }
    ensures valid { AreValidWhereWished }
{}
