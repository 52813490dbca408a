//! The law of derived components. The function does nothing; its contract is the law.

ghost use Rattle.derived_values.specs.Laws.{DependsOnParts};

/// A derived component of a request rests on the method, the scheme, the authority, the path, and
/// what it asks of the query and of the target as it is sent (RFC 9421 section 2.2).
pub fn components_depend_on_their_parts()
    ensures { DependsOnParts }
{}
