//! Laws of what the program answers. Each function does nothing; its contract is the law.

ghost use Rattle.program.specs.Laws.{HasIntake, HasOneReport, HasSomeReport, IsComplete, IsServedInPlace, IsIntakeDecided, IsAcceptedWhereNegotiated, IsAcceptedWhereSigned, IsVerdictKept, IsKeptWherePermitted, IsLineWhereRefused, IsSameWhereTurned, HasComeBackWhereTurned};
ghost use Rattle.program.specs.Meanings.{HasExplanation, HasNegotiated, HasOneBase, HasOneChain, HasRewritten, HasSigned, HaveOneMeaning, RunsAgreeWhereOneTag};

/// For given arguments, files and input there is one outcome, and so one status and one output. So
/// each row of the report is exact: its status and its output come there and nowhere else, out of
/// memory and failed devices aside.
pub fn one_report()
    ensures one { HasOneReport }
    ensures some { HasSomeReport }
{}

/// What is read for a command over a message is at most one value, or there is at most one cause to
/// refuse it, and not both; and one of the two, where the files and the input are of bytes.
pub fn the_intake_is_decided()
    ensures decided { IsIntakeDecided }
    ensures answer { HasIntake }
{}

/// What is refused is written as one line, whose one LF is its end.
pub fn a_refusal_is_one_line()
    ensures { IsLineWhereRefused }
{}

/// A command that has a configuration, a message and no fault of its own has an outcome of status 0
/// or 1.
pub fn a_command_that_has_all_is_answered()
    ensures { IsComplete }
{}

/// A run of `gateway` over a recording of messages in their places isn't refused: each message has
/// its record, or the first of them have, where a device fails or no memory is found.
pub fn a_stream_in_its_place_is_served()
    ensures { IsServedInPlace }
{}

/// What `verify` writes says of which labels it is `ok`: each is accepted, and any two messages in
/// which a label is with one tag under one key have the same signature parameters and the same
/// value of each covered component; or two texts have one HMAC under that key.
pub fn one_tag_has_one_meaning()
    ensures one { HaveOneMeaning }
    ensures runs { RunsAgreeWhereOneTag }
{}

/// What `sign` writes keeps the labels that were there, and each label that was signed is rightly
/// signed. Given to `verify` with the same request, at any moment, it is `ok` for each of these, or
/// names one of the rules 13 to 26, 33 and 34, by which key, moment, nonce, digest and what is
/// covered are judged; the configuration has the same scheme, kinds of fields and signing key.
pub fn what_is_signed_is_accepted()
    ensures signed { HasSigned }
    ensures accepted { IsAcceptedWhereSigned }
{}

/// What `negotiate` writes has each signature that its request wishes, rightly signed, keeps those
/// that were there, and has the digest that the request asks for, which is that of its content.
/// Given to `verify` with the same request, at any moment, it is `ok` for each label that is
/// wished, or names one of the rules 13 to 26, 33 and 34; the configuration has the same scheme,
/// kinds of fields and signing key.
pub fn what_is_negotiated_is_accepted()
    ensures negotiated { HasNegotiated }
    ensures accepted { IsAcceptedWhereNegotiated }
{}

/// What `rewrite` writes is the message after the steps; under a label it keeps the label's
/// signature and its base. Given to `verify` with the same request, it has the line of the label
/// and the status that the message had that was read, at each moment and by each configuration;
/// where a step rests on the configured scheme or kinds of fields, by each that has the same.
pub fn what_is_rewritten_keeps_its_verdict()
    ensures rewritten { HasRewritten }
    ensures verdict { IsVerdictKept }
{}

/// What `audit` writes is the report on the chain that its input records, and a sound one: a label
/// for which a hop is permitted keeps its signature, or lacks what it lacked, and where both
/// messages have one moment, it has the same verdict in both.
pub fn what_is_permitted_is_kept()
    ensures { IsKeptWherePermitted }
{}

/// What `base` writes is the signature base of the parameters that were asked for and of the values
/// that the input has for the components, and of no others.
pub fn a_base_has_one_meaning()
    ensures { HasOneBase }
{}

/// What `audit` writes says that a label is kept exactly where the message after the hop has its
/// signature, and one base is over both messages. Where a label is accepted on both sides of a hop
/// that changed a component, its tag is the HMAC of two texts.
pub fn what_is_kept_has_one_base()
    ensures { HasOneChain }
{}

/// What `explain` writes of two records of one message has two lists of rewritings, which the
/// label's signature permits and which lead both to messages that are normal and alike, exactly
/// where the two agree on each component that is covered; and else it has the first on which they
/// don't.
pub fn what_is_explained_agrees()
    ensures { HasExplanation }
{}

/// What `lists` writes is the message of the list that it read, or the list of the message, and
/// each component that is drawn from the message itself comes to the same in both, but for the
/// lines that only one of them has.
pub fn what_is_turned_has_the_same_values()
    ensures { IsSameWhereTurned }
{}

/// What `lists` writes as the message of a list comes back as that list from `lists`, in its normal
/// form, where its authority is one or it is a response.
pub fn what_is_turned_comes_back()
    ensures { HasComeBackWhereTurned }
{}
