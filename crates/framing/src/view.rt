//! The view of chunks.

ghost use Rattle.std.specs.Prelude.{◌≡◌, ◌↔◌, [], length, IsTrue};
ghost use Rattle.framing.specs.Chunks.{content_of};
ghost use Rattle.framing.specs.Views.{ChunksParts, chunks_of};
ghost use Rattle.framing.specs.tools.Read.{AreRead, parts_in};

use crate::pieces::ChunkPieces;
use std::marker::Model;

/// Chunks, borrowed from their bytes. A contract sees them as the bytes and the offsets of the
/// chunks, of which the chunks that they spell are a function. The offsets aren't kept: the bytes
/// are walked again where the content is asked for.
#[derive(Drop)]
pub struct ChunksView<'m> {
    bytes: &'m [u8],
    // Where the last chunk's line begins.
    last: usize,
    // How many chunks there are before it, and how many bytes of data they have.
    count: usize,
    content: usize,
}

impl<'m> Model for ChunksView<'m> {
    ghost use Rattle.framing.specs.Views.{ChunksParts};
    ghost use Rattle.framing.specs.tools.Read.{AreRead, parts_in};

    ghost Value = { ChunksParts };

    ghost view = { λ v. parts_in v.bytes.now v.last };

    ghost invariant = { λ v. AreRead v.bytes.now v.last v.count v.content };
}

impl<'m> ChunksView<'m> {
    /// The view of chunks, so many, with so much content.
    pub(crate) fn new(bytes: &'m [u8], last: usize, count: usize, content: usize) -> ChunksView<'m>
        requires { AreRead bytes.now last count content }
        ensures { result ≡ parts_in bytes.now last }
    {
        ChunksView {
            bytes,
            last,
            count,
            content,
        }
    }

    /// The same view once more.
    pub fn again(&self) -> ChunksView<'m>
        ensures { result ≡ self.now }
    {
        ChunksView {
            bytes: self.bytes,
            last: self.last,
            count: self.count,
            content: self.content,
        }
    }

    /// How many chunks there are, the last one, which has no data, aside.
    pub fn chunk_count(&self) -> usize
        ensures { result ≡ length self.now.spans }
    {
        self.count
    }

    /// How many bytes of content there are.
    pub fn content_len(&self) -> usize
        ensures { result ≡ length (content_of (chunks_of self.now)) }
    {
        self.content
    }

    /// Whether there is no content.
    pub fn is_empty(&self) -> bool
        ensures { IsTrue result ↔ (content_of (chunks_of self.now) ≡ []) }
    {
        self.content == 0
    }

    /// The content: the data of the chunks, in order.
    pub fn pieces(&self) -> ChunkPieces<'m>
        ensures { result ≡ (chunks_of self.now).chunks }
    {
        ChunkPieces::new(self.bytes)
    }
}
