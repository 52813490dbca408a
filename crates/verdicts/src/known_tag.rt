//! What is known of a tag before its label is judged.

ghost use Rattle.verdicts.specs.KnownTags.{KnowsTag};
ghost use Rattle.verdicts.specs.Verdicts.{IsVerdict};
ghost use Rattle.verdicts.specs.Verification.{Verification};

use crate::outcome::Verdict;
use signatures::{LabelRead, Rule};

/// A label with its signature, and whether its tag is right, where that is known. The code then
/// makes no signature base for it; no clause says this.
#[derive(Clone, Copy)]
pub struct SignedLabel<'r> {
    pub label: &'r [u8],
    pub read: &'r LabelRead,
    pub is_right: Option<bool>,
}

/// Whether the tag of the label is right, where that is known with its verdict.
pub fn known_with(verdict: &Verdict, is_right: Option<bool>) -> Option<bool>
    ensures { (v : Verification) → KnowsTag v.conf v.context v.label is_right
        → IsVerdict v verdict.now → KnowsTag v.conf v.context v.label result }
{
    match verdict {
        Verdict::Ok { .. } => Some(true),
        Verdict::Rule {
            number: Rule::MacMismatch,
            ..
        } => Some(false),
        Verdict::Rule { .. } => is_right,
    }
}
