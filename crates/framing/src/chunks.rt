//! Reads chunks.

ghost use Rattle.std.specs.Prelude.{◌≡◌, ◌↔◌, ℕ, Ok, Err, IfOk, IfErr};
ghost use Rattle.framing.specs.Chunks.{Chunks, SpellsChunks};
ghost use Rattle.framing.specs.ChunkCauses.{IsChunksError, AreChunksUnfinished};
ghost use Rattle.framing.specs.Views.{IsChunksViewOf};
ghost use Rattle.framing.specs.Outcome.{IfWholeChunks, IsViewOfChunks};
ghost use Rattle.framing.specs.tools.JudgedChunks.{IsFound, IsStop, ExplainsChunks};

use crate::chunk_error::ChunkError;
use crate::chunk_limits::MAX_CONTENT_BYTES;
use crate::line::{read_data, read_line};
use crate::view::ChunksView;
use byte_grammar::Left;

/// What the bytes begin with.
#[derive(Drop)]
pub enum ChunksRead<'m> {
    /// Chunks, and how many bytes spell them, the line of the last one and its CRLF included.
    Whole(ChunksView<'m>, usize),
    /// The last line isn't there yet, and may still come with its CRLF.
    Partial,
}

// The chunks that the bytes begin with.
#[derive(Clone, Copy)]
struct Found {
    // How many there are before the last line.
    count: usize,
    // Where the last line begins, and where its CRLF ends.
    last: usize,
    used: usize,
    // How many bytes of data the chunks have.
    content: usize,
}

// Why the chunks aren't found.
#[derive(Clone, Copy)]
enum Stop {
    TooLong,
    // So many bytes were left where it stopped.
    Left(usize),
}

impl From<Left> for Stop {
    ghost use Rattle.std.specs.Prelude.{◌≡◌};
    ghost use Rattle.framing.specs.declared.chunks.Stop.TheVariants.{Left};

    ghost from_gives = { λ left e. e ≡ Left left.0 };

    fn from(left: Left) -> Self {
        Self::Left(left.0)
    }
}

// Finds the chunks that the bytes begin with. A size is compared with the room that is left for
// content, so no sum of sizes is made that could be too great.
// Compiled by itself its loop keeps its variables in registers.
#[inline(never)]
fn find_chunks(bytes: &[u8]) -> Result<Found, Stop>
    ensures ok { IfOk result (λ found. IsFound bytes.now found) }
    ensures err { IfErr result (λ stop. IsStop bytes.now stop) }
{
    let mut count = 0;
    let mut room = MAX_CONTENT_BYTES;
    let mut left = bytes;
    'chunks: loop {
        let (first, after_line) = read_line(left)?;
        if first.is_last() {
            return Ok(Found {
                count,
                last: bytes.len() - left.len(),
                used: bytes.len() - after_line.len(),
                content: MAX_CONTENT_BYTES - room,
            });
        }
        if first.size > room as u64 {
            return Err(Stop::TooLong);
        }
        let size = first.size as usize;
        let (_, after) = read_data(size, after_line)?;
        count += 1;
        room -= size;
        left = after;
    }
}

// The answer to bytes, by its cause.
fn judge<'m>(bytes: &'m [u8]) -> Result<ChunksRead<'m>, ChunkError>
    ensures { ExplainsChunks bytes.now result }
{
    match find_chunks(bytes) {
        Ok(found) => {
            let chunks = &bytes[..found.used];
            let view = ChunksView::new(chunks, found.last, found.count, found.content);
            Ok(ChunksRead::Whole(view, found.used))
        }
        Err(Stop::Left(left)) => {
            if left == 0 {
                return Ok(ChunksRead::Partial);
            }
            Err(ChunkError::Bad(bytes.len() - left))
        }
        Err(Stop::TooLong) => Err(ChunkError::TooLong),
    }
}

/// Reads the chunks that the bytes begin with, up to and with the line of the last one and its CRLF
/// (RFC 9112 section 7.1).
///
/// No memory is taken. `TooLong` is answered as soon as the chunk line is there by whose size
/// content is too long.
pub fn read_chunks(bytes: &[u8]) -> Result<ChunksRead<'_>, ChunkError>
    ensures whole { IfWholeChunks result (λ view used. IsChunksViewOf bytes.now view used) }
    ensures found { (cs : Chunks) (used : ℕ) → SpellsChunks cs used bytes.now
        → IsViewOfChunks result cs used }
    ensures partial { result ≡ Ok ChunksRead.Partial → AreChunksUnfinished bytes.now }
    ensures unfinished { AreChunksUnfinished bytes.now → result ≡ Ok ChunksRead.Partial }

    // The first fault whose cause holds is answered, and no other.
    ensures fault { (fault : ChunkError) → (result ≡ Err fault) ↔ IsChunksError bytes.now fault }
{
    judge(bytes)
}
