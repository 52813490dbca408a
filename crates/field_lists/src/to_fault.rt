//! Why a list of fields is turned into no message.

use msg_head::{MAX_HEAD_BYTES, MAX_HEAD_LINES};
use std::error::Error;
use std::fmt;

/// A limit of heads or of trailer sections, in the order in which they are judged.
#[derive(Clone, Copy, Debug, PartialEq, Eq)]
pub enum MessageLimit {
    /// `MAX_HEAD_BYTES` bytes of the head.
    HeadBytes,
    /// `MAX_HEAD_BYTES` bytes of the trailer section.
    TrailerBytes,
    /// `MAX_HEAD_LINES` field lines of the head.
    HeadLines,
    /// `MAX_HEAD_LINES` field lines of the trailer section.
    TrailerLines,
}

/// The word that output has for it, and the limit.
impl fmt::Display for MessageLimit {
    ghost use Rattle.std.specs.Prelude.{Some};
    ghost use Rattle.field_lists.specs.Words.{limit_text};

    ghost output = { λ limit. Some (limit_text limit) };

    fn fmt<W: fmt::Write>(&self, f: &mut fmt::Formatter<W>) -> fmt::Result {
        match self {
            MessageLimit::HeadBytes => write!(f, "head-bytes {MAX_HEAD_BYTES}"),
            MessageLimit::TrailerBytes => write!(f, "trailer-bytes {MAX_HEAD_BYTES}"),
            MessageLimit::HeadLines => write!(f, "head-lines {MAX_HEAD_LINES}"),
            MessageLimit::TrailerLines => write!(f, "trailer-lines {MAX_HEAD_LINES}"),
        }
    }
}

/// Why a list is turned into no message, in the order in which it is judged.
#[derive(Clone, Copy, Debug, PartialEq, Eq)]
pub enum ToFault {
    /// Out of memory.
    Memory,
    /// The list doesn't begin with the pseudo-header fields of a request or of a response, or one
    /// of them has a value that isn't allowed (RFC 9113 section 8.3).
    Pseudo,
    /// The scheme isn't the one that is configured.
    SchemeOther,
    /// The field at this index is the first one whose name or value isn't allowed (RFC 9113
    /// sections 8.2.1, 8.2.2 and 8.3.1). Trailer fields are counted on after the others.
    BadField(usize),
    /// Several lengths are said, or one that is none or isn't that of the content (RFC 9113 section
    /// 8.1.1).
    BadLength,
    /// There is content or there are trailer fields where a response has no content, or trailer
    /// fields beside a length (RFC 9110 section 6.4.1).
    BodyRefused,
    /// The message would pass this limit.
    TooLarge(MessageLimit),
}

/// The word that output has for it.
impl fmt::Display for ToFault {
    ghost use Rattle.std.specs.Prelude.{Some};
    ghost use Rattle.field_lists.specs.Words.{to_fault_text};

    ghost output = { λ fault. Some (to_fault_text fault) };

    fn fmt<W: fmt::Write>(&self, f: &mut fmt::Formatter<W>) -> fmt::Result {
        match self {
            ToFault::Memory => f.write_str("out of memory"),
            ToFault::Pseudo => f.write_str("fields-pseudo"),
            ToFault::SchemeOther => f.write_str("fields-scheme"),
            ToFault::BadField(index) => write!(f, "fields-line {index}"),
            ToFault::BadLength => f.write_str("fields-length"),
            ToFault::BodyRefused => f.write_str("fields-body"),
            ToFault::TooLarge(limit) => write!(f, "{limit}"),
        }
    }
}

impl Error for ToFault {}

impl From<byte_grammar::Memory> for ToFault {
    ghost use Rattle.std.specs.Prelude.{◌≡◌};
    ghost use Rattle.field_lists.specs.declared.to_fault.ToFault.TheVariants as fault;

    ghost from_gives = { λ _ f. f ≡ fault.Memory };

    fn from(_memory: byte_grammar::Memory) -> ToFault {
        ToFault::Memory
    }
}
