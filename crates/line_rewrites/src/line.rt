//! Field lines that are written anew.

ghost use Rattle.std.specs.Prelude.{◌≡◌, ◌++◌, OnOk, codes, option_map};
ghost use Rattle.msg_head.specs.Lines.{line_text};
ghost use Rattle.msg_head.specs.Values.{value};
ghost use Rattle.msg_head.specs.Views.{field_line_of};
ghost use Rattle.line_rewrites.specs.LineLists.{line_of};
ghost use Rattle.line_rewrites.specs.tools.Computed.{raw_text, new_line_of, joined_line, line_becomes};

use crate::raw::{RawParts, folded, padded, unfolded, whole};
use crate::sides::is_same_name;
use msg_body::line_pieces;
use msg_head::LineView;
use rewrite_script::LineRewrite;
use sfv_text::{Memory, Text};

/// A field line, its raw value in parts.
#[derive(Clone, Copy)]
pub(crate) struct NewLine<'t> {
    pub name: &'t [u8],
    pub raw: RawParts<'t>,
}

/// The line with another raw value.
fn with_raw<'t>(line: LineView<'t>, raw: RawParts<'t>) -> NewLine<'t>
    ensures { new_line_of result ≡ record { name = line.entry.name.now; raw = raw_text raw.entry } }
{
    NewLine {
        name: line.name,
        raw,
    }
}

/// The one line that the step makes of the line.
pub(crate) fn new_line<'t>(step: &'t LineRewrite, line: LineView<'t>) -> Option<NewLine<'t>>
    ensures { option_map new_line_of result ≡ line_becomes step.now (field_line_of line.entry) }
{
    match step {
        LineRewrite::Pad { before, after, .. } => {
            Some(with_raw(line, padded(line.raw, before.bytes(), after.bytes())))
        }
        LineRewrite::Fold { at, blanks, .. } => {
            let raw = folded(line.raw, *at, blanks.bytes())?;
            Some(with_raw(line, raw))
        }
        LineRewrite::Unfold { at, .. } => {
            let raw = unfolded(line.raw, *at)?;
            Some(with_raw(line, raw))
        }
        LineRewrite::Case { name, .. } => {
            if !is_same_name(line.name, name.bytes()) {
                return None;
            }
            Some(NewLine {
                name: name.bytes(),
                raw: whole(line.raw),
            })
        }
        _ => None,
    }
}

fn append_raw(raw: RawParts<'_>, text: &mut Text) -> Result<(), Memory>
    ensures { OnOk result (text.new ≡ text.old ++ raw_text raw.entry) }
{
    text.append(raw.first)?;
    text.append(raw.second)?;
    text.append(raw.third)?;
    text.append(raw.last)
}

fn append_name(name: &[u8], text: &mut Text) -> Result<(), Memory>
    ensures { OnOk result (text.new ≡ text.old ++ (name.now ++ codes ":")) }
{
    text.append(name)?;
    text.append(b":")
}

/// Adds the line at the end.
pub(crate) fn append_line(line: NewLine<'_>, text: &mut Text) -> Result<(), Memory>
    ensures { OnOk result (text.new ≡ text.old ++ line_text (new_line_of line.entry)) }
{
    append_name(line.name, text)?;
    append_raw(line.raw, text)?;
    text.append(b"\r\n")
}

/// Adds the value of the raw value at the end.
pub fn append_value(raw: &[u8], text: &mut Text) -> Result<(), Memory>
    ensures { OnOk result (text.new ≡ text.old ++ value raw.now) }
{
    for piece in line_pieces(LineView { name: b"", raw }) {
        text.append(piece)?;
    }
    Ok(())
}

/// Adds the name, a colon and a space at the end.
fn append_name_and_space(name: &[u8], text: &mut Text) -> Result<(), Memory>
    ensures { OnOk result (text.new ≡ text.old ++ (name.now ++ codes ": ")) }
{
    text.append(name)?;
    text.append(b": ")
}

/// Adds the line of this name that has the value of the raw value.
pub(crate) fn append_value_line(name: &[u8], raw: &[u8], text: &mut Text) -> Result<(), Memory>
    ensures { OnOk result (text.new ≡ text.old ++ line_text (line_of name.now (value raw.now))) }
{
    append_name_and_space(name, text)?;
    append_value(raw, text)?;
    text.append(b"\r\n")
}

/// Adds the line that has the values of two lines.
pub(crate) fn append_joined_line(
    line: LineView<'_>,
    other: LineView<'_>,
    text: &mut Text,
) -> Result<(), Memory>
    ensures { OnOk result (text.new ≡ text.old
        ++ line_text (joined_line (field_line_of line.entry) (field_line_of other.entry))) }
{
    append_name_and_space(line.name, text)?;
    append_value(line.raw, text)?;
    text.append(b", ")?;
    append_value(other.raw, text)?;
    text.append(b"\r\n")
}

/// Adds the line of this name with a space before the text.
pub fn append_text_line(name: &[u8], line: &[u8], text: &mut Text) -> Result<(), Memory>
    ensures { OnOk result (text.new ≡ text.old ++ line_text (line_of name.now line.now)) }
{
    append_name_and_space(name, text)?;
    text.append(line)?;
    text.append(b"\r\n")
}
