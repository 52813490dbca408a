//! The bytes of a message before and after the place of further header lines.

ghost use Rattle.msg_body.specs.Views.{message_of};
ghost use Rattle.signing.specs.tools.Parts.{ArePartsOf};

use msg_body::MessageView;
use msg_head::Side;

/// The bytes of a message, cut after its header lines.
#[derive(Clone, Copy)]
pub(crate) struct Parts<'b> {
    /// The start line and the header lines.
    pub before: &'b [u8],
    /// The empty line, and what comes after the head.
    pub after: &'b [u8],
    /// How many header lines there are.
    pub lines: usize,
}

/// The parts of the message.
pub(crate) fn parts_of<'m>(message: &MessageView<'m>) -> Parts<'m>
    ensures { ArePartsOf (message_of message.now) result }
{
    let lines = message.line_count(Side::Header);
    let end = message.line_offset(Side::Header, lines);
    let (before, after) = message.bytes().split_at(end);
    Parts {
        before,
        after,
        lines,
    }
}
