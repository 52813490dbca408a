//! Texts that fields and lines are made of.

ghost use Rattle.std.specs.Prelude.{◌≡◌, IfOk};
ghost use Rattle.std.specs.Str.{str_to_ascii_lowercase};
ghost use Rattle.msg_head.specs.Values.{value};

use byte_grammar::{Memory, Text};
use msg_body::line_pieces;
use msg_head::LineView;
use std::alloc::Global;

/// The value of the line (RFC 9421 section 2.1).
pub(crate) fn value_of_line(alloc: Global, line: LineView<'_>) -> Result<Text, Memory>
    ensures { IfOk result (λ text. text ≡ value line.entry.raw.now) }
{
    let mut text = Text::new(alloc);
    for piece in line_pieces(line) {
        text.append(piece)?;
    }
    Ok(text)
}

/// The text in lower case.
pub(crate) fn lowered(alloc: Global, text: &[u8]) -> Result<Text, Memory>
    ensures { IfOk result (λ lower. lower ≡ str_to_ascii_lowercase text.now) }
{
    let mut lower = Text::with_capacity(alloc, text.len())?;
    for byte in text {
        lower.push(byte.to_ascii_lowercase())?;
    }
    Ok(lower)
}
