//! Laws of the choice of a policy. Each function does nothing; its contract is the law.

ghost use Rattle.settings.specs.Laws.{IsChosenByNoOther, IsChosenByTag, IsDefaultWithoutTag, IsForItsTagAlone, IsNoneWithoutDefault};

/// Of valid policies the one that selects a tag judges the signatures with it, and the one that
/// selects none those that are left.
pub fn a_policy_that_selects_the_tag_is_chosen()
    ensures tag { IsChosenByTag }
    ensures default { IsDefaultWithoutTag }
{}

/// A policy that is chosen selects the tag of the signature, or none: so one that selects a tag is
/// chosen by no other tag, and not where there is none. No policy is chosen exactly where none
/// selects that tag and none selects no tag.
pub fn nothing_else_is_chosen()
    ensures chosen { IsChosenByNoOther }
    ensures alone { IsForItsTagAlone }
    ensures none { IsNoneWithoutDefault }
{}
