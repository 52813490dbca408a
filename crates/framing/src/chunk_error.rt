//! Why chunks aren't read.

use crate::chunk_limits::MAX_CONTENT_BYTES;
use std::error::Error;
use std::fmt;

/// Why no chunks were read. Where several hold, the first in this order is answered.
#[derive(Clone, Copy, Debug, PartialEq, Eq)]
pub enum ChunkError {
    /// The chunks whose lines are there have more data by their sizes than content may have
    /// (RFC 9112 section 7.1 asks to guard against such sizes; the limit is `MAX_CONTENT_BYTES`).
    TooLong,
    /// The byte at this offset is the first one that no chunks have after the bytes before it
    /// (RFC 9112 section 7.1).
    Bad(usize),
}

/// The word that output has for it, with the limit that is passed, or where it is.
impl fmt::Display for ChunkError {
    ghost use Rattle.std.specs.Prelude.{Some};
    ghost use Rattle.framing.specs.ChunkWords.{chunk_error_text};

    ghost output = { λ error. Some (chunk_error_text error) };

    fn fmt<W: fmt::Write>(&self, f: &mut fmt::Formatter<W>) -> fmt::Result {
        match self {
            ChunkError::TooLong => write!(f, "content {MAX_CONTENT_BYTES}"),
            ChunkError::Bad(offset) => write!(f, "chunk {offset}"),
        }
    }
}

impl Error for ChunkError {}
