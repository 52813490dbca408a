//! Request lines, with the parts of their targets (RFC 9112 section 3.2).

ghost use Rattle.std.specs.Prelude.{IfSome, IfNone};
ghost use Rattle.msg_head.specs.Starts.{RequestLine};
ghost use Rattle.msg_head.specs.Views.{start_line_of};
ghost use Rattle.derived_values.specs.Targets.{IsRequestOf, TargetParts};
ghost use Rattle.derived_values.specs.Views.{parts_of, request_line_of};

use crate::target::{Target, cut_target};
use msg_head::Start;

/// A request line, and the parts of its target.
#[derive(Clone, Copy)]
pub struct TargetLine<'m> {
    pub method: &'m [u8],
    pub target: &'m [u8],
    pub version: &'m [u8],
    pub parts: Target<'m>,
}

/// The request line that the start line is; None of a response, and where the target is in no form.
pub fn target_line<'m>(start: Start<'m>) -> Option<TargetLine<'m>>
    ensures some { IfSome result (λ line.
        IsRequestOf (start_line_of start.entry) (request_line_of line) (parts_of line.parts)) }
    ensures none { IfNone result ((line : RequestLine) (parts : TargetParts) →
        ¬ IsRequestOf (start_line_of start.entry) line parts) }
{
    let Start::Request {
        method,
        target,
        version,
    } = start
    else {
        return None;
    };
    let parts = cut_target(method, target)?;
    Some(TargetLine {
        method,
        target,
        version,
        parts,
    })
}
