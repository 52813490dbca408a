//! The values of a field: of one line, and of all lines of a name together.

ghost use Rattle.std.specs.Prelude.{◌≡◌};
ghost use Rattle.msg_body.specs.Views.{message_of, lines_on};
ghost use Rattle.msg_head.specs.Values.{value, combined_value, joined_value};
ghost use Rattle.msg_head.specs.LeftInLines.{value_left};
ghost use Rattle.msg_body.specs.LeftInFields.{combined_left};

use crate::combined::Combined;
use crate::view::MessageView;
use msg_head::{LineView, NamedFieldLines, Pieces, Side};

/// The pieces of the line's value (RFC 9421 section 2.1), borrowed from its message.
pub fn line_pieces<'m>(line: LineView<'m>) -> Pieces<'m>
    ensures { value_left result ≡ value line.entry.raw.now }
{
    line.value_pieces()
}

/// The pieces of the values of these lines, joined by a comma and a space.
pub fn joined_pieces<'a, 'm>(lines: NamedFieldLines<'a, 'm>) -> Combined<'a, 'm>
    ensures { combined_left result ≡ joined_value lines.entry }
{
    Combined::new(lines)
}

/// The pieces of the combined value of the side's lines that have the name, which is in lower case.
pub fn combined_pieces<'a, 'm>(
    view: &'a MessageView<'m>,
    side: Side,
    name: &'a [u8],
) -> Combined<'a, 'm>
    ensures { combined_left result ≡ combined_value (lines_on side (message_of view.now)) name.now }
{
    Combined::new(view.lines_named(side, name))
}
