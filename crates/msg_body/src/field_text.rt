//! The combined value of a field as a text.

ghost use Rattle.std.specs.Prelude.{◌≡◌, IfOk};
ghost use Rattle.msg_body.specs.Views.{message_of, lines_on};
ghost use Rattle.msg_head.specs.Values.{combined_value};

use crate::field::combined_pieces;
use crate::view::MessageView;
use msg_head::Side;
use sfv_text::{Memory, Text};
use std::alloc::Global;

/// The combined value of the side's lines that have the name, which is in lower case (RFC 9421
/// section 2.1).
pub fn combined_text(
    alloc: Global,
    message: &MessageView<'_>,
    side: Side,
    name: &[u8],
) -> Result<Text, Memory>
    ensures { IfOk result (λ text. text
        ≡ combined_value (lines_on side (message_of message.now)) name.now) }
{
    let mut text = Text::new(alloc);
    for piece in combined_pieces(message, side, name) {
        text.append(piece)?;
    }
    Ok(text)
}
