//! What start lines say of content, and how content is framed.

ghost use Rattle.std.specs.Prelude.{◌≡◌};
ghost use Rattle.msg_head.specs.Views.{start_line_of};
ghost use Rattle.framing.specs.Framings.{is_request, is_head_request, version_of, has_no_content, is_code_without_content};

use byte_grammar::{Byte, starts_with};
use msg_head::Start;

/// What says where the content of a message ends (RFC 9112 section 6.3).
#[derive(Clone, Copy, PartialEq, Eq)]
pub enum Framing {
    /// There is no content.
    None,
    /// A `Content-Length` line has the number of its bytes (RFC 9112 section 6.2).
    Length,
    /// It comes in chunks (RFC 9112 section 7.1).
    Chunked,
    /// It ends where the bytes end, which only a response's does.
    ToEnd,
}

/// Whether the start line is a request line (RFC 9112 section 3).
pub fn is_request(start: Start<'_>) -> bool
    ensures { result ≡ is_request (start_line_of start.entry) }
{
    match start {
        Start::Request { .. } => true,
        Start::Status { .. } => false,
    }
}

/// Whether the start line is a request line whose method is HEAD (RFC 9110 section 9.3.2).
pub fn is_head_request(start: Start<'_>) -> bool
    ensures { result ≡ is_head_request (start_line_of start.entry) }
{
    match start {
        Start::Request { method, .. } => method == b"HEAD".as_slice(),
        Start::Status { .. } => false,
    }
}

/// The version that the start line has (RFC 9112 section 2.3).
pub(crate) fn version_of<'m>(start: Start<'m>) -> &'m [u8]
    ensures { result.now ≡ version_of (start_line_of start.entry) }
{
    match start {
        Start::Request { version, .. } => version,
        Start::Status { version, .. } => version,
    }
}

// Whether no response with this status code has content.
fn is_code_without_content(code: &[u8]) -> bool
    ensures { result ≡ is_code_without_content code.now }
{
    starts_with(Byte(b'1'), code) || code == b"204".as_slice() || code == b"304".as_slice()
}

/// Whether the message is a response that has no content, whatever its lines say.
pub(crate) fn has_no_content(to_head: bool, start: Start<'_>) -> bool
    ensures { result ≡ has_no_content to_head (start_line_of start.entry) }
{
    match start {
        Start::Request { .. } => false,
        Start::Status { code, .. } => to_head || is_code_without_content(code),
    }
}
