//! Laws of rewritings. Each function does nothing; its contract is the law.

ghost use Rattle.rewrites.specs.Decisions.{HasMessageOrNone, PermitsOrNot};
ghost use Rattle.rewrites.specs.Laws.{DependsOnMessages, GivesKind, GivesOneMessage, KeepsOverSteps, KeepsWhereAlike, KeepsWherePermitted, KeepsWhereSame};

/// A step that a line can write gives one message, of the same kind, or isn't applicable.
pub fn a_step_gives_one_message()
    ensures one { GivesOneMessage }
    ensures some { HasMessageOrNone }
    ensures kind { GivesKind }
{}

/// A signature permits a step or not.
pub fn a_step_is_permitted_or_not()
    ensures { PermitsOrNot }
{}

/// What a step gives, and whether it is permitted, rests on the messages; of some kinds on the
/// configured scheme and kinds of fields too.
pub fn a_step_rests_on_messages()
    ensures { DependsOnMessages }
{}

/// What a signature permits keeps it: its parameters and its tag, what its components come to, the
/// content, and so the signature base and the verdict. So does every list of such steps.
pub fn permitted_steps_keep_a_signature()
    ensures where_same { KeepsWhereSame }
    ensures where_alike { KeepsWhereAlike }
    ensures step { KeepsWherePermitted }
    ensures steps { KeepsOverSteps }
{}
