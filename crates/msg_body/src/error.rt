//! Why a message isn't read.

use framing::{ChunkError, FramingError};
use msg_head::{HeadError, Side};
use std::error::Error;
use std::fmt;

/// Why no message was read. The faults of the head are judged first, in this order, then a start
/// line of the other kind than expected, then what says how the content ends, then the content from
/// its first byte on, and last the trailer section, as the head is.
#[derive(Clone, Copy, Debug, PartialEq, Eq)]
pub enum MessageError {
    /// No memory was found for the offsets of the field lines.
    Memory,
    /// As many bytes as the side may have are there, and its end isn't among them.
    TooLong(Side),
    /// NUL, a CR without LF after it or an LF without CR before it is at this offset, counted
    /// from the message's first byte.
    NakedEnd(usize),
    /// The first line is no start line, or one of the other kind than expected.
    BadStart,
    /// The side has more field lines than it may have. A folded line counts as one.
    TooManyLines(Side),
    /// The line with this index on its side is no field line. Those before it are.
    BadLine(Side, usize),
    /// There are a `Content-Length` and a `Transfer-Encoding` line (RFC 9112 section 6.3,
    /// number 3).
    FramingConflict,
    /// There are several `Content-Length` lines, or the value of the one isn't 1 to 15 digits (RFC
    /// 9112 section 6.3, number 5).
    BadLength,
    /// There are several `Transfer-Encoding` lines, or one of another coding than `chunked`, or of
    /// another version than HTTP/1.1 (RFC 9112 sections 6.1 and 7).
    CodingRefused,
    /// The bytes up to and with the one at this offset, counted from the message's first byte,
    /// begin no chunks (RFC 9112 section 7.1).
    BadChunk(usize),
    /// The content has more bytes than it may have.
    ContentTooLong,
}

/// Why a text isn't one whole message.
#[derive(Clone, Copy, Debug, PartialEq, Eq)]
pub enum MessageFault {
    /// It begins with no message. Where no memory was found, it is `MessageError::Memory`, which
    /// says nothing of the text.
    Refused(MessageError),
    /// Bytes of a message are missing, and nothing in it is wrong. It has this many bytes.
    Truncated(usize),
    /// It begins with a message, and further bytes come after it, from this offset on.
    Trailing(usize),
}

/// The word that output has for it, with the limit that is passed, or where it is.
impl fmt::Display for MessageError {
    ghost use Rattle.std.specs.Prelude.{Some};
    ghost use Rattle.msg_body.specs.Words.{message_error_text};

    ghost output = { λ error. Some (message_error_text error) };

    fn fmt<W: fmt::Write>(&self, f: &mut fmt::Formatter<W>) -> fmt::Result {
        match *self {
            MessageError::Memory => HeadError::Memory.fmt(f),
            MessageError::TooLong(side) => HeadError::TooLong(side).fmt(f),
            MessageError::NakedEnd(offset) => HeadError::NakedEnd(offset).fmt(f),
            MessageError::BadStart => HeadError::BadStart.fmt(f),
            MessageError::TooManyLines(side) => HeadError::TooManyLines(side).fmt(f),
            MessageError::BadLine(side, index) => HeadError::BadLine(side, index).fmt(f),
            MessageError::FramingConflict => FramingError::Conflict.fmt(f),
            MessageError::BadLength => FramingError::BadLength.fmt(f),
            MessageError::CodingRefused => FramingError::CodingRefused.fmt(f),
            MessageError::BadChunk(offset) => ChunkError::Bad(offset).fmt(f),
            MessageError::ContentTooLong => ChunkError::TooLong.fmt(f),
        }
    }
}

impl Error for MessageError {}

/// The word that output has for it, with the limit that is passed, or where it is.
impl fmt::Display for MessageFault {
    ghost use Rattle.std.specs.Prelude.{Some};
    ghost use Rattle.msg_body.specs.Words.{message_fault_text};

    ghost output = { λ fault. Some (message_fault_text fault) };

    fn fmt<W: fmt::Write>(&self, f: &mut fmt::Formatter<W>) -> fmt::Result {
        match self {
            MessageFault::Refused(error) => error.fmt(f),
            MessageFault::Truncated(count) => write!(f, "truncated {count}"),
            MessageFault::Trailing(offset) => write!(f, "trailing {offset}"),
        }
    }
}

impl Error for MessageFault {}

impl From<HeadError> for MessageError {
    ghost use Rattle.std.specs.Prelude.{◌≡◌};
    ghost use Rattle.msg_body.specs.Errors.{error_of};

    ghost from_gives = { λ head error. error ≡ error_of head };

    fn from(error: HeadError) -> Self {
        match error {
            HeadError::Memory => Self::Memory,
            HeadError::TooLong(side) => Self::TooLong(side),
            HeadError::NakedEnd(offset) => Self::NakedEnd(offset),
            HeadError::BadStart => Self::BadStart,
            HeadError::TooManyLines(side) => Self::TooManyLines(side),
            HeadError::BadLine(side, index) => Self::BadLine(side, index),
        }
    }
}

impl From<FramingError> for MessageError {
    ghost use Rattle.std.specs.Prelude.{◌≡◌};
    ghost use Rattle.msg_body.specs.Errors.{framing_error};

    ghost from_gives = { λ framing error. error ≡ framing_error framing };

    fn from(error: FramingError) -> Self {
        match error {
            FramingError::Conflict => Self::FramingConflict,
            FramingError::BadLength => Self::BadLength,
            FramingError::CodingRefused => Self::CodingRefused,
        }
    }
}

impl MessageError {
    ghost use Rattle.std.specs.Prelude.{◌≡◌, ◌+◌, ◌<◌};
    ghost use Rattle.msg_body.specs.Errors.{chunk_error, trailer_error};
    ghost use Rattle.msg_body.specs.tools.Judged.{IsChunkOffset, IsTrailerOffset};

    // The error for this one of the chunks that begin at that offset.
    pub(crate) fn of_chunks(start: usize, fault: ChunkError) -> MessageError
        requires { IsChunkOffset start fault }
        ensures { result ≡ chunk_error start fault }
    {
        match fault {
            ChunkError::TooLong => Self::ContentTooLong,
            ChunkError::Bad(offset) => Self::BadChunk(start + offset),
        }
    }

    // The error for this one of the trailer section that begins at that offset.
    pub(crate) fn of_trailer(start: usize, fault: HeadError) -> MessageError
        requires { IsTrailerOffset start fault }
        ensures { result ≡ trailer_error start fault }
    {
        match fault {
            HeadError::NakedEnd(offset) => Self::NakedEnd(start + offset),
            _ => fault.into(),
        }
    }
}
