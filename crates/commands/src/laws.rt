//! Laws of what a command makes of what was read. Each function does nothing; its contract is the
//! law.

ghost use Rattle.commands.specs.Laws.{AreParamsDecided, AreValuesDecided, HaveOneOutcome, HaveParams, HaveValuesOrLack, HaveSomeOutcome, HasOneSigning, HasSomeSigning, HasOneRewritten, HasSomeRewritten, HasOneExplained, HasSomeExplained, HasOneAuditing, HasSomeAuditing, HasOneSampling, HasSomeSampling, IsRecordingDecided, IsChainDecided, HasRecording, HasAudit, IsListDecided, HasList, HasOneIntoFields, HasOneIntoMessage, HasSomeIntoFields, HasSomeIntoMessage, HasOneNegotiation, HasSomeNegotiation};
ghost use Rattle.commands.specs.SignedMessages.{IsKeptWhereSigned, IsMessageWhereSigned, IsRightWhereSigned};
ghost use Rattle.commands.specs.RewrittenMessages.{IsMessageWhereRewritten, HasVerdictWhereRewritten};

/// What a layer reads is at most one value, or there is at most one cause to refuse it, and not
/// both. So where each layer is judged after the one before it, there is at most one outcome.
pub fn each_layer_is_decided()
    ensures params { AreParamsDecided }
    ensures values { AreValuesDecided }
    ensures recording { IsRecordingDecided }
    ensures chain { IsChainDecided }
    ensures list { IsListDecided }
{}

/// What a layer reads is some value, or there is some cause to refuse it.
pub fn each_layer_has_an_answer()
    ensures params { HaveParams }
    ensures values { HaveValuesOrLack }
    ensures recording { HasRecording }
    ensures chain { HasAudit }
    ensures list { HasList }
{}

/// The verdicts on the labels that are asked for have one outcome.
pub fn verdicts_have_one_outcome()
    ensures some { HaveSomeOutcome }
    ensures one { HaveOneOutcome }
{}

/// What is signed by a configuration has one outcome.
pub fn signing_has_one_outcome()
    ensures one { HasOneSigning }
    ensures some { HasSomeSigning }
{}

/// What a script makes of a message has one outcome.
pub fn rewriting_has_one_outcome()
    ensures one { HasOneRewritten }
    ensures some { HasSomeRewritten }
{}

/// What is explained of two records of one message has one outcome.
pub fn explaining_has_one_outcome()
    ensures one { HasOneExplained }
    ensures some { HasSomeExplained }
{}

/// What is audited by a configuration has one outcome.
pub fn auditing_has_one_outcome()
    ensures one { HasOneAuditing }
    ensures some { HasSomeAuditing }
{}

/// What a list of fields is turned into has one outcome, and what a message is.
pub fn turning_has_one_outcome()
    ensures message { HasOneIntoMessage }
    ensures some_message { HasSomeIntoMessage }
    ensures fields { HasOneIntoFields }
    ensures some_fields { HasSomeIntoFields }
{}

/// What is signed as a request asks has one outcome.
pub fn negotiating_has_one_outcome()
    ensures one { HasOneNegotiation }
    ensures some { HasSomeNegotiation }
{}

/// What is sampled has one outcome, and it is no refusal.
pub fn sampling_has_one_outcome()
    ensures one { HasOneSampling }
    ensures some { HasSomeSampling }
{}

/// What is rewritten is the message after the steps, of the same kind. Under a label it keeps the
/// label's verdict, at each moment and by each configuration, of the same scheme and kinds of
/// fields where a step rests on these.
pub fn what_is_rewritten_keeps_its_verdict()
    ensures message { IsMessageWhereRewritten }
    ensures verdict { HasVerdictWhereRewritten }
{}

/// What is signed by a configuration can be verified by it: it is a message, in which each label
/// that was signed is signed with the key of its `keyid`. The labels that were there before keep
/// their signature parameters and tags.
pub fn what_is_signed_is_rightly_signed()
    ensures message { IsMessageWhereSigned }
    ensures right { IsRightWhereSigned }
    ensures kept { IsKeptWhereSigned }
{}
