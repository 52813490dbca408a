//! Laws of targets and authorities. Each function does nothing; its contract is the law.

ghost use Rattle.derived_values.specs.TargetLaws.{OneTarget, OneAuthority, OneAuthorityValue, SchemeInAnyCase, TargetIsDecided, AuthorityIsDecided, HasVisibleParts, HasVisibleText, HasVisibleValue, HasItselfForValue, HasPartsInValue, IsAuthorityInTarget, IsOneRequest, IsRequestOrNot};

/// A method and a target spell at most one target's parts, a text has at most one host and port,
/// and under a scheme, in whatever case it is written, at most one value.
pub fn a_target_has_one_reading()
    ensures target { OneTarget }
    ensures authority { OneAuthority }
    ensures value { OneAuthorityValue }
    ensures scheme { SchemeInAnyCase }
{}

/// A method and a target spell some target's parts or none, and under a scheme a text has a value
/// as an authority or none.
pub fn targets_are_decided()
    ensures target { TargetIsDecided }
    ensures authority { AuthorityIsDecided }
{}

/// A start line is a request line of one target's parts, or isn't.
pub fn a_start_line_is_of_one_target()
    ensures one { IsOneRequest }
    ensures decided { IsRequestOrNot }
{}

/// The parts of a visible target, an authority and its value are visible ASCII. So no value breaks
/// a line.
pub fn values_are_visible()
    ensures parts { HasVisibleParts }
    ensures text { HasVisibleText }
    ensures value { HasVisibleValue }
{}

/// The value of an authority is an authority of that value, of its host in lower case and the port
/// that is kept, and can stand in a target.
pub fn values_are_authorities()
    ensures itself { HasItselfForValue }
    ensures parts { HasPartsInValue }
    ensures in_target { IsAuthorityInTarget }
{}
