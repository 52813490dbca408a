//! Why a head or a trailer section isn't read.

use crate::limits::{MAX_HEAD_BYTES, MAX_HEAD_LINES};
use std::alloc::{AllocError, AllocFailed};
use std::error::Error;
use std::fmt;

/// Where field lines are in a message.
#[derive(Clone, Copy, Debug, PartialEq, Eq)]
pub enum Side {
    /// The header section, which ends the head (RFC 9112 section 2.1).
    Header,
    /// The trailer section after chunked content (RFC 9112 section 7.1.2).
    Trailer,
}

/// Why no head or no trailer section was read. Where several hold, the first in this order is
/// answered.
#[derive(Clone, Copy, Debug, PartialEq, Eq)]
pub enum HeadError {
    /// No memory was found for the offsets of the field lines.
    Memory,
    /// As many bytes as the side may have are there, and its end isn't among them.
    TooLong(Side),
    /// NUL, a CR without LF after it or an LF without CR before it is at this offset from the
    /// first byte that was given.
    NakedEnd(usize),
    /// The first line of a head is neither a request line nor a status line.
    BadStart,
    /// The side has more field lines than it may have. A folded line counts as one.
    TooManyLines(Side),
    /// The line with this index on its side is no field line. Those before it are.
    BadLine(Side, usize),
}

/// How output calls the side.
impl fmt::Display for Side {
    ghost use Rattle.std.specs.Prelude.{Some};
    ghost use Rattle.msg_head.specs.Words.{side_text};

    ghost output = { λ side. Some (side_text side) };

    fn fmt<W: fmt::Write>(&self, f: &mut fmt::Formatter<W>) -> fmt::Result {
        f.write_str(match self {
            Side::Header => "head",
            Side::Trailer => "trailer",
        })
    }
}

/// The word that output has for it, with the limit that is passed, or where it is.
impl fmt::Display for HeadError {
    ghost use Rattle.std.specs.Prelude.{Some};
    ghost use Rattle.msg_head.specs.Words.{head_error_text};

    ghost output = { λ error. Some (head_error_text error) };

    fn fmt<W: fmt::Write>(&self, f: &mut fmt::Formatter<W>) -> fmt::Result {
        match self {
            HeadError::Memory => f.write_str("out of memory"),
            HeadError::TooLong(side) => write!(f, "{side}-bytes {MAX_HEAD_BYTES}"),
            HeadError::NakedEnd(offset) => write!(f, "naked-end {offset}"),
            HeadError::BadStart => f.write_str("start-line"),
            HeadError::TooManyLines(side) => write!(f, "{side}-lines {MAX_HEAD_LINES}"),
            HeadError::BadLine(side, index) => write!(f, "{side}-line {index}"),
        }
    }
}

impl Error for HeadError {}

impl From<AllocError> for HeadError {
    ghost use Rattle.std.specs.Prelude.{◌≡◌};
    ghost use Rattle.msg_head.specs.declared.error.HeadError.TheVariants.{Memory};

    ghost from_gives = { λ _ e. e ≡ Memory };

    fn from(_error: AllocError) -> Self {
        Self::Memory
    }
}

impl<T: Drop> From<AllocFailed<T>> for HeadError {
    ghost use Rattle.std.specs.Prelude.{◌≡◌};
    ghost use Rattle.msg_head.specs.declared.error.HeadError.TheVariants.{Memory};

    ghost from_gives = { λ _ e. e ≡ Memory };

    fn from(_error: AllocFailed<T>) -> Self {
        Self::Memory
    }
}
