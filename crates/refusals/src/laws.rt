//! Laws of refusals. Each function does nothing; its contract is the law.

ghost use Rattle.refusals.specs.Laws.{HasStatusOfRefusal, IsLineOfRefusal};

/// The status of a refusal is none of those of other ends: that a run is done, or that a device
/// failed, or that memory ran out.
pub fn a_refusal_has_a_status_of_its_own()
    ensures { HasStatusOfRefusal }
{}

/// A refusal writes one line, where what it has from outside has no end of a line.
pub fn a_refusal_is_one_line()
    ensures { IsLineOfRefusal }
{}
