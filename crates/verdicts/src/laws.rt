//! Laws of verdicts. Each function does nothing; its contract is the law.

ghost use Rattle.verdicts.specs.Laws.{HasVerdict, HasOneVerdict, IsAcceptedWhereNoRuleFails, CoversEachPolicy, FailsByItsTag, HoldsOtherRulesOfPolicies, HasVerdictOfItsTag, HoldsRulesOfSigning, IsAcceptedByOtherRules, DependsOnItsSignature, DependsOnSignature, OneTagAgrees, OneTagAgreesWhereAlone};

/// A label has one verdict, and it is accepted exactly where no rule fails.
pub fn a_label_has_one_verdict()
    ensures some { HasVerdict }
    ensures one { HasOneVerdict }
    ensures accepted { IsAcceptedWhereNoRuleFails }
{}

/// A label for which there is no policy, by the parameter `tag` of its signature, fails by rule 23.
/// Of the other rules that ask a policy none fails, so its verdict is rule 23 where rules 1 to 16
/// hold.
pub fn a_label_without_a_policy_fails_by_its_tag()
    ensures fails { FailsByItsTag }
    ensures others { HoldsOtherRulesOfPolicies }
    ensures verdict { HasVerdictOfItsTag }
{}

/// The window of a configuration is as great as that of each of its policies.
pub fn the_window_covers_each_policy()
    ensures { CoversEachPolicy }
{}

/// Of a label that is signed with the key of its `keyid`, rules 1 to 12 and 27 to 32 hold, so it is
/// accepted where the others hold.
pub fn a_signed_label_is_accepted_by_the_other_rules()
    ensures holds { HoldsRulesOfSigning }
    ensures accepted { IsAcceptedByOtherRules }
{}

/// The verdict on a label depends on the start line, on the content, on the fields of signatures,
/// on what the covered components come to, and on the field of the digests where it is covered.
/// Of a label that has a signature it depends on that and on the kind of the message, in place of
/// the fields of signatures and the start line, and on what the field of the digests reads as.
pub fn a_verdict_depends_on_its_signature()
    ensures label { DependsOnItsSignature }
    ensures signed { DependsOnSignature }
{}

/// Two messages that are accepted for labels with one tag under one key have the same signature
/// parameters and the same value of each covered component; or their bases are two texts with one
/// HMAC under that key. Where no other text than the base has that tag under the key, they agree.
pub fn two_messages_with_one_tag_agree()
    ensures agree { OneTagAgrees }
    ensures alone { OneTagAgreesWhereAlone }
{}
