//! Where field lines are in the bytes of their message, and which of them have a name (RFC 9110
//! section 5.1).
//!
//! The lines are at offsets in bytes that are borrowed. They are kept in order of their names in
//! lower case too, by which those of a name are found by halving. What else a field line has, a
//! value say, is for the crates above. These cite one law of `proofs/`, that of `Filtered`: what a
//! function gives of the elements that pass a test (`map_filter`).
//!
//! ```text
//! let bytes = b"Host: a\r\nAccept: b\r\n";
//! // spans: LineSpan { name: 0, colon: 4, end: 7 }, LineSpan { name: 9, colon: 15, end: 18 }
//! let lines = LineIndex::new(alloc, bytes, spans)?;
//! lines.len()                  // 2
//! lines.named(b"host").next()  // Some(LineSpan { name: 0, colon: 4, end: 7 })
//! lines.named(b"Host").next()  // None, since it isn't in lower case
//! ```
#![tactic(auto)]

mod index;
mod lines;
mod name;
mod named;
mod span;

pub use lines::LineIndex;
pub use name::lowers_to;
pub use named::NamedSpans;
pub use span::LineSpan;
