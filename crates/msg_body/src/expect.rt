//! Which messages are expected.

ghost use Rattle.std.specs.Prelude.{◌≡◌};
ghost use Rattle.msg_head.specs.Views.{start_line_of};
ghost use Rattle.msg_body.specs.Messages.{is_expected};

use framing::is_request;
use msg_head::Start;

/// Which kind of message is read.
#[derive(Clone, Copy, PartialEq, Eq)]
pub enum Expect {
    /// A request (RFC 9112 section 3).
    Request,
    /// A response (RFC 9112 section 4).
    Response,
    /// Either of them.
    Any,
}

/// Whether the start line is of the kind that is expected.
pub(crate) fn is_expected(expect: Expect, start: Start<'_>) -> bool
    ensures { result ≡ is_expected expect (start_line_of start.entry) }
{
    match expect {
        Expect::Request => is_request(start),
        Expect::Response => !is_request(start),
        Expect::Any => true,
    }
}
