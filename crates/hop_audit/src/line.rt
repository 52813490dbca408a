//! The lines of a report.

use component_ids::ComponentId;
use sfv_text::{Sequence, Text};
use verdicts::Verdict;

/// What becomes of a signature at a hop: the first of these that holds.
#[derive(Drop)]
pub enum Fate {
    /// The message after the hop hasn't the label with the same signature parameters and tag.
    Dropped,
    /// A covered component has a value in one of the messages, and another or none in the other; or
    /// it lacks one in both, in different ways. It is the first.
    Changed(ComponentId),
    /// A covered component lacks a value in both messages. It is the first.
    Lacking(ComponentId),
    /// Each covered component has its value in both messages.
    Kept,
}

/// A line of a report. Messages are counted from 0; hop K leads from message K - 1 to message K.
#[derive(Drop)]
pub enum AuditLine {
    /// The verdict on the label in the message.
    Message {
        index: usize,
        label: Text,
        verdict: Verdict,
    },
    /// Whether the script explains the message that came out; else the first step that isn't
    /// applicable, where there is one.
    Hop {
        index: usize,
        explained: bool,
        stopped: Option<usize>,
    },
    /// The label has no signature in the message before the hop.
    Unread {
        index: usize,
        label: Text,
    },
    /// Whether the hop is explained, and the label's signature permits each step in the message
    /// that it meets; and what becomes of it.
    Label {
        index: usize,
        label: Text,
        permitted: bool,
        fate: Fate,
    },
}

/// The lines of a report, in order.
pub type AuditReport = Sequence<AuditLine>;
