//! What a rewriting of the whole message asks of a signature.

ghost use Rattle.std.specs.Prelude.{◌↔◌, IsTrue};
ghost use Rattle.whole_rewrites.specs.Conditions.{IsMetBy};

use crate::covered::covers_unread;
use crate::permit_field::{is_framing_uncovered, is_host_uncovered, rests_on};
use crate::permit_target::{is_query_kept, is_query_uncovered, is_target_uncovered};
use component_ids::SigParams;
use derived_values::ComparedQueries;
use msg_head::Side;

/// What a rewriting of the whole message asks of a signature that is to stay, where all is judged
/// that rests on no signature.
#[derive(Drop)]
pub enum WholeCondition<'s> {
    /// Nothing.
    Always,
    /// No signature is sure to stay.
    Never,
    /// None of its components rests on the lines of this label's signature.
    LabelUncovered { label: &'s [u8] },
    /// It covers no field that frames (RFC 9112 section 6).
    FramingUncovered,
    /// It doesn't cover `@request-target`.
    TargetUncovered,
    /// It doesn't cover `Host`.
    HostUncovered,
    /// It covers neither the query whole nor a parameter of it.
    QueryUncovered,
    /// It doesn't cover the query whole, and of each parameter that it covers the queries have the
    /// same values (RFC 9421 section 2.2.8).
    QueryKept { queries: ComparedQueries },
    /// It doesn't cover the field of this name on the side, but for its strict form and its members
    /// (RFC 9421 sections 2.1.1 and 2.1.2).
    UnreadUncovered { side: Side, name: &'s [u8] },
}

impl WholeCondition<'_> {
    /// Whether a signature of these parameters meets it.
    pub fn is_met(&self, params: &SigParams) -> bool
        ensures { IsTrue result ↔ IsMetBy params.now self.now }
    {
        match self {
            WholeCondition::Always => true,
            WholeCondition::Never => false,
            WholeCondition::LabelUncovered { label } => !rests_on(label, params),
            WholeCondition::FramingUncovered => is_framing_uncovered(params),
            WholeCondition::TargetUncovered => is_target_uncovered(params),
            WholeCondition::HostUncovered => is_host_uncovered(params),
            WholeCondition::QueryUncovered => is_query_uncovered(params),
            WholeCondition::QueryKept { queries } => is_query_kept(queries, params),
            WholeCondition::UnreadUncovered { side, name } => {
                !covers_unread(*side, name, params)
            }
        }
    }
}
