//! Laws of signatures and their labels. Each function does nothing; its contract is the law.

ghost use Rattle.signatures.specs.Laws.{HasLabels, HasOneListOfLabels, HasSignatureOrNot, HasOneSignature, IsUnreadByOneRule, HasNoFailureWhereRead, IsUnreadByRulesTo12, IsSignatureInRange, HaveSameSignature, FailToReadTheSame, HasItsOwnNumber, HasNumber};

/// A message has one list of labels.
pub fn a_message_has_one_list_of_labels()
    ensures some { HasLabels }
    ensures one { HasOneListOfLabels }
{}

/// A message has one signature of a label, or one of rules 1 to 12 is the first that fails, at one
/// place. Where it has one, no rule of them fails, and its parameters can be printed.
pub fn a_label_has_one_reading()
    ensures some { HasSignatureOrNot }
    ensures signature { HasOneSignature }
    ensures rule { IsUnreadByOneRule }
    ensures either { HasNoFailureWhereRead }
    ensures to_12 { IsUnreadByRulesTo12 }
    ensures in_range { IsSignatureInRange }
{}

/// What is read of a label depends on the fields `Signature-Input` and `Signature` of the header
/// alone: on whether they are there, and on their combined values.
pub fn labels_depend_on_their_fields()
    ensures signature { HaveSameSignature }
    ensures rules { FailToReadTheSame }
{}

/// The rules are numbered from 1 to 34, each by a number of its own.
pub fn a_rule_has_its_own_number()
    ensures own { HasItsOwnNumber }
    ensures number { HasNumber }
{}
