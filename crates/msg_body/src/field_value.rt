//! The joined values of lines, copied only where they are in several pieces.

ghost use Rattle.std.specs.Prelude.{◌≡◌, ◌++◌, IfOk};
ghost use Rattle.msg_head.specs.Values.{joined_value};
ghost use Rattle.msg_body.specs.FieldValues.{value_bytes};
ghost use Rattle.msg_body.specs.LeftInFields.{combined_left};

use crate::combined::Combined;
use crate::field::joined_pieces;
use msg_head::NamedFieldLines;
use sfv_text::{Memory, Text};
use std::alloc::Global;

/// The values of lines, joined by a comma and a space (RFC 9421 section 2.1).
#[derive(Drop)]
pub enum FieldValue<'m> {
    /// They are one piece of the message: the value of one line that isn't folded.
    Borrowed(&'m [u8]),
    /// They were put together.
    Owned(Text),
}

impl<'m> FieldValue<'m> {
    ghost use Rattle.std.specs.Prelude.{◌≡◌};
    ghost use Rattle.msg_body.specs.FieldValues.{value_bytes};

    /// The bytes, in order.
    pub fn bytes(&self) -> &[u8]
        ensures { result.now ≡ value_bytes self.now }
    {
        match self {
            FieldValue::Borrowed(bytes) => bytes,
            FieldValue::Owned(text) => text.bytes(),
        }
    }
}

/// The pieces that are left, after two that came before.
fn put_together(
    alloc: Global,
    first: &[u8],
    second: &[u8],
    others: Combined<'_, '_>,
) -> Result<Text, Memory>
    ensures { IfOk result (λ text.
        text ≡ (first.now ++ second.now) ++ combined_left others.entry) }
{
    let mut text = Text::from_bytes(alloc, first)?;
    text.append(second)?;
    for piece in others {
        text.append(piece)?;
    }
    Ok(text)
}

/// The values of these lines, joined. Only values in several pieces are copied, which no clause
/// says.
pub fn joined_value<'m>(
    alloc: Global,
    lines: NamedFieldLines<'_, 'm>,
) -> Result<FieldValue<'m>, Memory>
    ensures { IfOk result (λ value. value_bytes value ≡ joined_value lines.entry) }
{
    let mut pieces = joined_pieces(lines);
    let Some(first) = pieces.next() else {
        return Ok(FieldValue::Borrowed(&[]));
    };
    let Some(second) = pieces.next() else {
        return Ok(FieldValue::Borrowed(first));
    };
    Ok(FieldValue::Owned(put_together(alloc, first, second, pieces)?))
}
