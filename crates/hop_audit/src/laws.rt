//! Laws of audits. Each function does nothing; its contract is the law.

ghost use Rattle.hop_audit.specs.Laws.{HasOneLf, IsKeptWithItsBase, IsKeptWithItsBaseAtHops, KeepsFate, HasOneFate, HasSomeFate, HaveAuditOrFault, HaveNoFaultWhereAudited, HaveOneAudit, HaveOneFault, KeepsWhatIsPermitted, TellsWhatChanged, TellsWhatChangedAtHops};

/// The items of a recording have one report, or one fault.
pub fn items_have_one_audit()
    ensures report { HaveOneAudit }
    ensures fault { HaveOneFault }
    ensures none { HaveNoFaultWhereAudited }
    ensures some { HaveAuditOrFault }
{}

/// A signature has one fate at a hop.
pub fn a_signature_has_one_fate()
    ensures one { HasOneFate }
    ensures some { HasSomeFate }
{}

/// A signature for which a hop is permitted is kept, or lacks what it lacked; at the same moment it
/// has the same verdict.
pub fn what_is_permitted_is_kept()
    ensures fate { KeepsFate }
    ensures report { KeepsWhatIsPermitted }
{}

/// A signature is kept exactly where the other message has it and it has one base over both. Where
/// a component has changed and the signature is accepted in both messages, its tag is the HMAC of
/// two bases. So it is with the lines of a report on a recording.
pub fn one_tag_tells_one_base()
    ensures kept { IsKeptWithItsBase }
    ensures kept_line { IsKeptWithItsBaseAtHops }
    ensures changed { TellsWhatChanged }
    ensures changed_line { TellsWhatChangedAtHops }
{}

/// A line of a report is written as one line: it has one LF, at its end, where the labels, the
/// identifiers and the texts that it has from a message have no end of a line.
pub fn each_line_has_one_lf()
    ensures { HasOneLf }
{}
