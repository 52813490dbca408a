//! Laws of chunks.

ghost use Rattle.framing.specs.ChunkLaws.{OneChunks, NoChunksInPrefix, EachHasAnAnswer, OneChunksFault, NoFaultAtChunks, NoChunksAnswerYet, IsLineOfSize, IsInChunksWhereSized};

/// The laws of chunks: bytes begin with the text of at most one list of chunks, and nothing that
/// begins chunks goes on after their end.
pub fn bytes_begin_with_one_list_of_chunks()
    ensures one { OneChunks }
    ensures prefix { NoChunksInPrefix }
{}

/// The answer to bytes is one: they begin with chunks, or the end of chunks may still come, or they
/// have one fault.
pub fn chunks_have_one_answer()
    ensures some { EachHasAnAnswer }
    ensures fault { OneChunksFault }
    ensures chunks { NoFaultAtChunks }
    ensures unfinished { NoChunksAnswerYet }
{}

/// A chunk line can be written for each size that content may have.
pub fn sizes_have_a_line()
    ensures { IsLineOfSize }
{}

/// Content is in chunks of given sizes in one way, where they add up to its length.
pub fn content_has_one_list_of_sized_chunks()
    ensures { IsInChunksWhereSized }
{}
