//! What comes after a head.

ghost use Rattle.std.specs.Prelude.{◌+◌, ◌≤◌, length};
ghost use Rattle.msg_body.specs.declared.limits.TheConstants.{MAX_MESSAGE_BYTES};
ghost use Rattle.msg_body.specs.tools.Judged.{ExplainsChunked, ExplainsBody};

use crate::error::MessageError;
use framing::{ChunksRead, ChunksView, Framed, Framing, MAX_CONTENT_BYTES, read_chunks};
use msg_head::{TrailerRead, TrailerView, read_trailer};
use std::alloc::Global;

/// The body of a message, borrowed from its bytes.
#[derive(Drop)]
pub(crate) enum BodyView<'m> {
    /// Content that is the body.
    Plain(&'m [u8]),
    /// Content in chunks, and the trailer section after it (RFC 9112 section 7.1).
    Chunked(ChunksView<'m>, TrailerView<'m>),
}

/// What the bytes after a head begin with.
#[derive(Drop)]
pub(crate) enum BodyRead<'m> {
    /// A body, and how many bytes it has.
    Whole(BodyView<'m>, usize),
    /// Bytes of it are missing.
    Partial,
}

// The chunks and the trailer section that the bytes begin with. They begin at that offset.
fn read_chunked<'m>(
    alloc: Global,
    bytes: &'m [u8],
    start: usize,
) -> Result<BodyRead<'m>, MessageError>
    requires short { start + length bytes.now ≤ MAX_MESSAGE_BYTES }
    ensures { ExplainsChunked start bytes.now result }
{
    let (chunks, used) = match read_chunks(bytes) {
        Ok(ChunksRead::Whole(chunks, used)) => (chunks, used),
        Ok(ChunksRead::Partial) => return Ok(BodyRead::Partial),
        Err(fault) => return Err(MessageError::of_chunks(start, fault)),
    };
    let (_, rest) = bytes.split_at(used);
    match read_trailer(alloc, rest) {
        Ok(TrailerRead::Whole(trailer, count)) => {
            Ok(BodyRead::Whole(BodyView::Chunked(chunks, trailer), used + count))
        }
        Ok(TrailerRead::Partial) => Ok(BodyRead::Partial),
        Err(fault) => Err(MessageError::of_trailer(start + used, fault)),
    }
}

// The content of that length with which the bytes begin.
fn read_length<'m>(bytes: &'m [u8], count: usize) -> Result<BodyRead<'m>, MessageError>
    ensures { ExplainsBody Framing.Length count 0 bytes.now result }
{
    if count > MAX_CONTENT_BYTES {
        return Err(MessageError::ContentTooLong);
    }
    match bytes.get(..count) {
        Some(content) => Ok(BodyRead::Whole(BodyView::Plain(content), count)),
        None => Ok(BodyRead::Partial),
    }
}

// The content that goes to the end of the bytes.
fn read_to_end<'m>(bytes: &'m [u8]) -> Result<BodyRead<'m>, MessageError>
    ensures { ExplainsBody Framing.ToEnd 0 0 bytes.now result }
{
    if bytes.len() > MAX_CONTENT_BYTES {
        return Err(MessageError::ContentTooLong);
    }
    Ok(BodyRead::Whole(BodyView::Plain(bytes), bytes.len()))
}

/// The body of that framing that the bytes after a head begin with. They begin at that offset.
pub(crate) fn read_body<'m>(
    alloc: Global,
    bytes: &'m [u8],
    start: usize,
    framed: Framed,
) -> Result<BodyRead<'m>, MessageError>
    requires short { start + length bytes.now ≤ MAX_MESSAGE_BYTES }
    ensures { ExplainsBody framed.framing framed.length start bytes.now result }
{
    match framed.framing {
        Framing::None => Ok(BodyRead::Whole(BodyView::Plain(&[]), 0)),
        Framing::Length => read_length(bytes, framed.length),
        Framing::Chunked => read_chunked(alloc, bytes, start),
        Framing::ToEnd => read_to_end(bytes),
    }
}
