//! Reads the framing of a message.

ghost use Rattle.std.specs.Prelude.{◌≡◌, ◌↔◌, Err, IfOk, IsOk};
ghost use Rattle.msg_head.specs.Views.{head_of, start_line_of};
ghost use Rattle.framing.specs.Framings.{IsFramable, framing_by, framing_of, content_length_of};
ghost use Rattle.framing.specs.Causes.{IsFramingError};
ghost use Rattle.framing.specs.tools.Judged.{IsFramingAnswer};

use crate::coding::are_accepted_codings;
use crate::error::FramingError;
use crate::kind::{Framing, has_no_content, is_request, version_of};
use crate::length::read_length;
use crate::named::NamedLines;
use msg_head::{HeadView, Start};

/// How the content of a message is framed.
#[derive(Clone, Copy, PartialEq, Eq)]
pub struct Framed {
    /// What says where the content ends.
    pub framing: Framing,
    /// The number that the `Content-Length` line has, 0 where there is no such line. A message
    /// without content may have one too (RFC 9110 section 8.6).
    pub length: usize,
}

// The framing of a message with this start line, where there are such lines or none.
fn framing_by(to_head: bool, start: Start<'_>, has_codings: bool, has_lengths: bool) -> Framing
    ensures { result ≡ framing_by to_head (start_line_of start.entry) has_codings has_lengths }
{
    if has_no_content(to_head, start) {
        Framing::None
    } else if has_codings {
        Framing::Chunked
    } else if has_lengths {
        Framing::Length
    } else if is_request(start) {
        Framing::None
    } else {
        Framing::ToEnd
    }
}

// The framing of the head's message, or the first error.
fn judge(head: &HeadView<'_>, to_head: bool) -> Result<Framed, FramingError>
    ensures { IsFramingAnswer to_head (head_of head.now) result }
{
    let codings = NamedLines::find(head, b"transfer-encoding");
    let lengths = NamedLines::find(head, b"content-length");
    if codings.are_some() && lengths.are_some() {
        return Err(FramingError::Conflict);
    }
    let Some(length) = read_length(lengths) else {
        return Err(FramingError::BadLength);
    };
    if !are_accepted_codings(codings, version_of(head.start())) {
        return Err(FramingError::CodingRefused);
    }
    Ok(Framed {
        framing: framing_by(
            to_head,
            head.start(),
            codings.are_some(),
            lengths.are_some(),
        ),
        length,
    })
}

/// Reads how the content of the head's message is framed (RFC 9112 section 6.3).
///
/// `to_head` says that a response answers a HEAD request, which is why it has no content. Of
/// several errors the first in the order of [`FramingError`] is answered; no memory is taken.
pub fn read_framing(head: &HeadView<'_>, to_head: bool) -> Result<Framed, FramingError>
    ensures ok { IfOk result (λ framed. IsFramable (head_of head.now)
        × (framed.framing ≡ framing_of to_head (head_of head.now))
        × (framed.length ≡ content_length_of (head_of head.now))) }
    ensures there { IsFramable (head_of head.now) → IsOk result }
    ensures fault { (error : FramingError)
        → (result ≡ Err error) ↔ IsFramingError (head_of head.now) error }
{
    judge(head, to_head)
}
