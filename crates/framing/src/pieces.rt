//! The content of chunks, piece by piece.

ghost use Rattle.std.specs.Prelude.{◌≡◌};
ghost use Rattle.framing.specs.tools.Read.{IsReadable, chunks_in};

use crate::line::{read_data, read_line};
use std::marker::Model;

/// The data of the chunks that are left, in order. A contract sees it as these chunks.
#[derive(Drop)]
pub struct ChunkPieces<'m> {
    // The bytes from the next chunk's line on.
    left: &'m [u8],
}

impl<'m> Model for ChunkPieces<'m> {
    ghost use Rattle.std.specs.Prelude.{List};
    ghost use Rattle.framing.specs.Chunks.{Chunk};
    ghost use Rattle.framing.specs.tools.Read.{IsReadable, chunks_in};

    ghost Value = { List Chunk };

    ghost view = { λ p. chunks_in p.left.now };

    ghost invariant = { λ p. IsReadable p.left.now };
}

impl<'m> ChunkPieces<'m> {
    /// The data of the chunks that the bytes begin with.
    pub(crate) fn new(bytes: &'m [u8]) -> ChunkPieces<'m>
        requires { IsReadable bytes.now }
        ensures { result ≡ chunks_in bytes.now }
    {
        ChunkPieces { left: bytes }
    }
}

impl<'m> Iterator for ChunkPieces<'m> {
    ghost use Rattle.std.specs.Prelude.{length};
    ghost use Rattle.std.specs.Iterator.{at_most};
    ghost use Rattle.byte_grammar.specs.Pieces.{YieldsPiece};
    ghost use Rattle.framing.specs.Chunks.{data_of};

    type Item = &'m [u8];

    ghost next_gives = { YieldsPiece data_of };

    ghost remaining = { λ chunks. at_most (length chunks) };

    fn next(&mut self) -> Option<&'m [u8]> {
        let Ok((line, after_line)) = read_line(self.left) else {
            unreachable!()
        };
        if line.is_last() {
            return None;
        }
        let Ok((data, after)) = read_data(line.size as usize, after_line) else {
            unreachable!()
        };
        self.left = after;
        Some(data)
    }
}
