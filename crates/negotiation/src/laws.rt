//! Laws of responses that are signed as their requests ask. Each function does nothing; its
//! contract is the law.

ghost use Rattle.negotiation.specs.Laws.{HasOneSignedEach, HasOneEachFault, HasSignedEachOrFault, IsMessageWhereSignedEach, HasOneChosen, HasOneNegotiated, HasOneNegotiateFault, HasNegotiatedOrFault, IsMessageWhereNegotiated, HasEachWished, KeepsEachSignature, HasDigestWhereChosen};

/// A message has each of some signatures in one way, or one of them is the first that isn't made,
/// for one fault.
pub fn a_message_has_each_signature_or_a_fault()
    ensures one { HasOneSignedEach }
    ensures one_fault { HasOneEachFault }
    ensures either { HasSignedEachOrFault }
    ensures message { IsMessageWhereSignedEach }
{}

/// A request asks for one digest.
pub fn one_digest_is_chosen()
    ensures { HasOneChosen }
{}

/// A response is signed as its request asks in one way, or there is one fault that is the first.
pub fn a_response_is_negotiated_or_has_a_fault()
    ensures one { HasOneNegotiated }
    ensures one_fault { HasOneNegotiateFault }
    ensures either { HasNegotiatedOrFault }
    ensures message { IsMessageWhereNegotiated }
{}

/// A response that is signed as its request asks has each signature that is wished, rightly signed,
/// and keeps those that it had.
pub fn a_response_has_the_wished_signatures()
    ensures wished { HasEachWished }
    ensures kept { KeepsEachSignature }
{}

/// Where a request asks for a digest, the response that is signed as it asks has it, and its
/// digests are those of its content.
pub fn a_response_has_the_chosen_digest()
    ensures { HasDigestWhereChosen }
{}
