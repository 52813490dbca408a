//! Laws of digests.

ghost use Rattle.content_digest.specs.Laws.{HasDigestAnswer, NoFaultWhereHolds, OneDigestFault, DependsOnItsDict};

/// Digests are those of the content, or have one fault, and not both.
pub fn digests_hold_or_have_one_fault()
    ensures answer { HasDigestAnswer }
    ensures either { NoFaultWhereHolds }
    ensures one { OneDigestFault }
{}

/// Digests depend on the Dictionary that the field's text reads as, and on nothing else of it.
pub fn digests_depend_on_their_dictionary()
    ensures { DependsOnItsDict }
{}
