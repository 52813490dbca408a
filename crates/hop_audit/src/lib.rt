//! Audits of recorded chains: a message, and then for each hop a script and the message that came
//! out. At which hop a signature (RFC 9421) was lost, and what was done to it there.
//!
//! ```text
//! // at 1618884473, request S, script "pad h 1 ss t", request S with its line 1 padded
//! for line in audit(alloc, &recording, &conf)?.iter() { .. }
//! // Message { index: 0, label: sig-b25, verdict: Ok { .. } }
//! // Hop { index: 1, explained: true, stopped: None }
//! // Label { index: 1, label: sig-b25, permitted: true, fate: Kept }
//! // Message { index: 1, label: sig-b25, verdict: Ok { .. } }
//! ```
#![tactic(auto)]

mod answer;
mod chain_audit;
mod comparison;
mod fault;
mod hop_lines;
mod known_tags;
mod laws;
mod line;
mod line_text;
mod order;
mod read;
mod stage;
mod walk;

pub use chain_audit::{audit, audit_chain};
pub use fault::ChainFault;
pub use laws::{
    a_signature_has_one_fate, each_line_has_one_lf, items_have_one_audit, one_tag_tells_one_base,
    what_is_permitted_is_kept,
};
pub use line::{AuditLine, AuditReport, Fate};
pub use line_text::{append_report, finds_fault};
pub use recording::{MAX_HOPS, items_are_a_chain_or_not};
