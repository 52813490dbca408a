//! How the head of a message says that its content ends (RFC 9112 sections 6.1 to 6.3), and the
//! chunks of a chunked message (section 7.1), up to and with the line of the last one.
//!
//! A head is judged by its `Transfer-Encoding` and `Content-Length` lines, whether or not its
//! message has content. Forms that recipients are known to read differently, by which one message
//! is smuggled in another (RFC 9112 section 11.2), are refused.
//!
//! Chunks are read from the start of the bytes that hold them, and the view of them borrows these
//! bytes. Sizes and limits are judged before any data is asked for, and data is never copied. The
//! trailer section that comes after them is not read here.
//!
//! ```text
//! // The head `POST / HTTP/1.1\r\nContent-Length: 18\r\n\r\n`
//! read_framing(&head, false)  // Ok(Framed { framing: Framing::Length, length: 18 })
//! // The head `HTTP/1.1 200 OK\r\nContent-Length: 18\r\n\r\n`, as the answer to a HEAD request
//! read_framing(&head, true)   // Ok(Framed { framing: Framing::None, length: 18 })
//! // A head with the lines `Content-Length: 18` and `Transfer-Encoding: chunked`
//! read_framing(&head, false)  // Err(FramingError::Conflict)
//!
//! let bytes = b"4;a=b\r\nWiki\r\n0\r\n\r\n";
//! match read_chunks(bytes)? {
//!     ChunksRead::Whole(chunks, used) => { .. } // used is 16, the content is b"Wiki"
//!     ChunksRead::Partial => { .. }             // more bytes are wanted
//! }
//! ```
#![tactic(auto)]

mod chunk_error;
mod chunk_laws;
mod chunk_limits;
mod chunks;
mod classes;
mod coding;
mod error;
mod kind;
mod laws;
mod length;
mod limit_laws;
mod limits;
mod line;
mod named;
mod pieces;
mod read;
mod view;
mod write;

pub use chunk_error::ChunkError;
pub use chunk_laws::{
    bytes_begin_with_one_list_of_chunks, chunks_have_one_answer,
    content_has_one_list_of_sized_chunks, sizes_have_a_line,
};
pub use chunk_limits::{MAX_CONTENT_BYTES, MAX_EXTENSION_BYTES, MAX_SIZE_DIGITS};
pub use chunks::{ChunksRead, read_chunks};
pub use error::FramingError;
pub use kind::{Framing, is_head_request, is_request};
pub use laws::a_head_is_framable_or_has_one_error;
pub use limit_laws::limits_are_these;
pub use limits::MAX_LENGTH_DIGITS;
pub use pieces::ChunkPieces;
pub use read::{Framed, read_framing};
pub use view::ChunksView;
pub use write::{append_chunks, are_chunk_sizes};
