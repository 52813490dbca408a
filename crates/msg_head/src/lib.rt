//! Heads of HTTP/1.1 messages: a start line and field lines (RFC 9112). Trailer sections too: field
//! lines after chunked content. And of each field line its name and its value (RFC 9110 section
//! 5.1, RFC 9421 section 2.1).
//!
//! A head is read from the start of the bytes that hold it, and the view of it borrows them. It has
//! a `LineIndex` of the lines, by which those of a name are found. Raw values keep their obsolete
//! line folding. The value of a line comes as borrowed pieces: its raw value without the blanks at
//! its ends, each run of blanks and obsolete folds in it one space.
//!
//! ```text
//! let bytes = b"GET / HTTP/1.1\r\nHost: example.com\r\n\r\n";
//! match read_head(alloc, bytes)? {
//!     HeadRead::Whole(head, used) => { .. } // used is 37, head.line(0).raw is b" example.com"
//!     HeadRead::Partial => { .. }           // more bytes are wanted
//! }
//! ```
#![tactic(auto)]

mod blanks;
mod error;
mod head;
mod laws;
mod limit_laws;
mod limits;
mod line;
mod name;
mod named_lines;
mod pieces;
mod section;
mod section_lines;
mod slices;
mod start;
mod trailer;
mod value;
mod view;

pub use error::{HeadError, Side};
pub use head::{HeadRead, read_head};
pub use laws::{
    a_line_has_one_value, bytes_begin_with_one_head, further_lines_keep_other_values,
    heads_have_one_answer, trailers_have_one_answer,
};
pub use limit_laws::limits_are_these;
pub use limits::{MAX_HEAD_BYTES, MAX_HEAD_LINES};
pub use line::LineView;
pub use line_index::LineSpan;
pub use named_lines::NamedFieldLines;
pub use pieces::Pieces;
pub use start::{Start, is_code};
pub use trailer::{TrailerRead, TrailerView, read_trailer};
pub use view::HeadView;
