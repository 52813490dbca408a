//! The field lines of a name.

ghost use Rattle.std.specs.Prelude.{◌≡◌, length, nat_lt};
ghost use Rattle.msg_body.specs.Views.{message_of, lines_on};
ghost use Rattle.msg_head.specs.Values.{values, is_there};

use crate::view::MessageView;
use msg_head::Side;

/// How many field lines of the side have the name, which is in lower case.
pub fn count_lines(view: &MessageView<'_>, side: Side, name: &[u8]) -> usize
    ensures count { result ≡ length (values (lines_on side (message_of view.now)) name.now) }
    ensures there { is_there (lines_on side (message_of view.now)) name.now ≡ nat_lt 0 result }
{
    view.lines_named(side, name).len()
}
