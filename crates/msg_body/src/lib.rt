//! Messages of HTTP/1.1: a head, and the content that its framing says (RFC 9112 sections 2.1, 6
//! and 7); and the values of their fields, as borrowed pieces (RFC 9421 section 2.1).
//!
//! Requests and responses are read, their content of a length, in chunks with a trailer section, or
//! up to the end. The view of a message borrows its bytes, and no content is copied. The values of
//! a field's lines are joined by a comma and a space; memory is taken only by a text, and by a
//! joined value that is in several pieces.
//!
//! ```text
//! let bytes = b"POST / HTTP/1.1\r\nTransfer-Encoding: chunked\r\n\r\n\
//!     3\r\nabc\r\n0\r\nA: b\r\n\r\n";
//! match read_message(alloc, bytes, Expect::Request, false)? {
//!     MessageRead::Whole(message, used) => { .. } // used is 66
//!     MessageRead::Partial => { .. }              // more bytes are wanted
//! }
//! for piece in message.content_pieces() { .. }    // b"abc"
//! message.line(Side::Trailer, 0)                  // `A`, ` b`
//! // A line `X: a\r\n  b ` and a line `x: c`
//! for piece in combined_pieces(&view, Side::Header, b"x") { .. }     // joined: b"a b, c"
//! count_lines(&view, Side::Header, b"x")                             // 2
//! ```
#![tactic(auto)]

mod body;
mod combined;
mod content;
mod error;
mod expect;
mod field;
mod field_laws;
mod field_lines;
mod field_text;
mod field_value;
mod laws;
mod limit_laws;
mod limits;
mod other_head;
mod read;
mod view;
mod whole;

pub use combined::Combined;
pub use content::ContentPieces;
pub use error::{MessageError, MessageFault};
pub use expect::Expect;
pub use field::{combined_pieces, joined_pieces, line_pieces};
pub use field_laws::{lists_of_lines_keep_their_values, raw_values_keep_their_value};
pub use field_lines::count_lines;
pub use field_text::combined_text;
pub use field_value::{FieldValue, joined_value};
pub use laws::{a_text_is_one_message_or_not, bytes_spell_one_message, messages_have_one_answer};
pub use limit_laws::limits_are_these;
pub use limits::MAX_MESSAGE_BYTES;
pub use other_head::read_other_head;
pub use read::{MessageRead, read_message};
pub use view::MessageView;
pub use whole::{Reading, whole_message};
