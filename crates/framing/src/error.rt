//! Why a head doesn't say how content ends.

use std::error::Error;
use std::fmt;

/// Why a head is refused for its framing, whether or not its message has content. Where several
/// hold, the first in this order is answered.
#[derive(Clone, Copy, Debug, PartialEq, Eq)]
pub enum FramingError {
    /// The head has lines of both `Transfer-Encoding` and `Content-Length` (RFC 9112 section 6.3,
    /// number 3).
    Conflict,
    /// The head has two `Content-Length` lines or more, or one whose value isn't 1 to 15 digits
    /// (RFC 9112 section 6.3, number 5).
    BadLength,
    /// The head has a `Transfer-Encoding` line, and it has two or more of them, or the value isn't
    /// `chunked` alone, or the version isn't HTTP/1.1 (RFC 9112 section 6.1).
    CodingRefused,
}

/// The word that output has for it.
impl fmt::Display for FramingError {
    ghost use Rattle.std.specs.Prelude.{Some};
    ghost use Rattle.framing.specs.Words.{framing_error_text};

    ghost output = { λ error. Some (framing_error_text error) };

    fn fmt<W: fmt::Write>(&self, f: &mut fmt::Formatter<W>) -> fmt::Result {
        f.write_str(match self {
            FramingError::Conflict => "framing",
            FramingError::BadLength => "length",
            FramingError::CodingRefused => "coding",
        })
    }
}

impl Error for FramingError {}
