//! The content of a message, in pieces.

use crate::body::BodyView;
use framing::ChunkPieces;

/// The pieces of a message's content that are left (RFC 9112 section 7.1).
#[derive(Drop)]
pub enum ContentPieces<'m> {
    /// Content in one piece, where it has not come yet.
    Plain(Option<&'m [u8]>),
    /// The data of chunks.
    Chunked(ChunkPieces<'m>),
}

impl<'m> Iterator for ContentPieces<'m> {
    ghost use Rattle.std.specs.Iterator.{at_most};
    ghost use Rattle.byte_grammar.specs.Pieces.{YieldsPiece};
    ghost use Rattle.msg_body.specs.Content.{content_left, content_bound};

    type Item = &'m [u8];

    ghost next_gives = { YieldsPiece content_left };

    ghost remaining = { λ pieces. at_most (content_bound pieces) };

    fn next(&mut self) -> Option<&'m [u8]> {
        match self {
            ContentPieces::Plain(content) => content.take(),
            ContentPieces::Chunked(pieces) => pieces.next(),
        }
    }
}

impl<'m> ContentPieces<'m> {
    ghost use Rattle.std.specs.Prelude.{◌≡◌};
    ghost use Rattle.msg_body.specs.Bodies.{content_in};
    ghost use Rattle.msg_body.specs.Views.{body_of};
    ghost use Rattle.msg_body.specs.Content.{body_parts, content_left};

    /// All pieces of the body's content.
    pub(crate) fn new(body: &BodyView<'m>) -> ContentPieces<'m>
        ensures { content_left result ≡ content_in (body_of (body_parts body.now)) }
    {
        match body {
            BodyView::Plain(content) => ContentPieces::Plain(Some(*content)),
            BodyView::Chunked(chunks, _) => ContentPieces::Chunked(chunks.pieces()),
        }
    }
}
