//! Where the field lines of a side are in the bytes of their message.

ghost use Rattle.std.specs.Prelude.{◌≡◌, ◌+◌, ◌-◌, ◌≤◌, ◌<◌, length, take, drop, IfSome, ◌^◌, option_map, slice_get};
ghost use Rattle.std.specs.Str.{bytes_eq, str_to_ascii_lowercase};
ghost use Rattle.msg_head.specs.Values.{is_there};
ghost use Rattle.msg_head.specs.Views.{field_line_of};
ghost use Rattle.msg_body.specs.Views.{message_of, lines_on};

use msg_body::MessageView;
use msg_head::{LineView, Side};
use std::marker::Model;

/// The line with that index on the side.
pub(crate) fn line_at<'m>(
    message: &MessageView<'m>,
    side: Side,
    index: usize,
) -> Option<LineView<'m>>
    ensures line { option_map field_line_of result
        ≡ slice_get (lines_on side (message_of message.now)) index }
    ensures there { IfSome result
        (λ _. index < length (lines_on side (message_of message.now))) }
    ensures fits { IfSome result (λ _. index + 1 < 2 ^ 64) }
{
    if index < message.line_count(side) {
        Some(message.line(side, index))
    } else {
        None
    }
}

/// Whether the names are one, in which case doesn't count (RFC 9110 section 5.1).
pub(crate) fn is_same_name(name: &[u8], other: &[u8]) -> bool
    ensures { result
        ≡ bytes_eq (str_to_ascii_lowercase name.now) (str_to_ascii_lowercase other.now) }
{
    name.eq_ignore_ascii_case(other)
}

/// Whether a line from the one index up to the other has the name of the line.
pub(crate) fn is_between(
    message: &MessageView<'_>,
    side: Side,
    from: usize,
    to: usize,
    line: LineView<'_>,
) -> bool
    requires { to ≤ length (lines_on side (message_of message.now)) }
    ensures { result ≡ is_there
        (take (to - from) (drop from (lines_on side (message_of message.now))))
        (str_to_ascii_lowercase line.entry.name.now) }
{
    for index in from..to {
        if is_same_name(message.line(side, index).name, line.name) {
            return true;
        }
    }
    false
}

/// The bytes before that offset.
fn bytes_before(bytes: &[u8], offset: usize) -> &[u8]
    requires { offset ≤ length bytes.now }
    ensures { result.now ≡ take offset bytes.now }
{
    &bytes[..offset]
}

/// The bytes from that offset on.
fn bytes_from(bytes: &[u8], offset: usize) -> &[u8]
    requires { offset ≤ length bytes.now }
    ensures { result.now ≡ drop offset bytes.now }
{
    &bytes[offset..]
}

/// A side of a message, in the message's bytes. A contract sees it as the bytes before the lines,
/// the lines, and the bytes after them.
#[derive(Drop)]
pub struct SideLines<'a, 'm> {
    message: &'a MessageView<'m>,
    side: Side,
}

impl<'a, 'm> Model for SideLines<'a, 'm> {
    ghost use Rattle.msg_body.specs.Views.{message_of};
    ghost use Rattle.line_rewrites.specs.Sides.{SideParts, side_parts};

    ghost Value = { SideParts };

    ghost view = { λ s. side_parts s.side (message_of s.message.now) };
}

impl<'a, 'm> SideLines<'a, 'm> {
    ghost use Rattle.std.specs.Prelude.{◌≡◌, ◌+◌, ◌-◌, ◌≤◌, ◌<◌, ◌^◌, IfSome, ◌++◌, length, take, drop, IsTrue, IsFalse, MatchOption, option_map, slice_get};
    ghost use Rattle.std.specs.Str.{str_to_ascii_lowercase};
    ghost use Rattle.msg_head.specs.Values.{is_there};
    ghost use Rattle.msg_head.specs.Views.{field_line_of};
    ghost use Rattle.msg_body.specs.Views.{message_of};
    ghost use Rattle.line_rewrites.specs.Sides.{lines_text, has_side, side_parts};

    /// The side of the message. None where it is the trailer section's, and the content isn't in
    /// chunks.
    pub fn of(message: &'a MessageView<'m>, side: Side) -> Option<SideLines<'a, 'm>>
        ensures { MatchOption result (IsFalse (has_side side (message_of message.now)))
            (λ lines. IsTrue (has_side side (message_of message.now))
            × (lines ≡ side_parts side (message_of message.now))) }
    {
        if side == Side::Trailer && !message.has_trailers() {
            return None;
        }
        Some(SideLines { message, side })
    }

    /// How many lines there are.
    pub fn count(&self) -> usize
        ensures { result ≡ length self.now.lines }
    {
        self.message.line_count(self.side)
    }

    /// The line with that index.
    pub fn line(&self, index: usize) -> Option<LineView<'m>>
        ensures line { option_map field_line_of result ≡ slice_get self.now.lines index }
        ensures there { IfSome result (λ _. index < length self.now.lines) }
        ensures fits { IfSome result (λ _. index + 1 < 2 ^ 64) }
    {
        line_at(self.message, self.side, index)
    }

    /// Whether a line from the one index up to the other has the name of the line.
    pub fn is_between(&self, from: usize, to: usize, line: LineView<'_>) -> bool
        requires { to ≤ length self.now.lines }
        ensures { result ≡ is_there (take (to - from) (drop from self.now.lines))
            (str_to_ascii_lowercase line.entry.name.now) }
    {
        is_between(self.message, self.side, from, to, line)
    }

    /// The offset of the line, or of what comes after the lines where the index is their count.
    fn offset(&self, index: usize) -> usize
        requires { index ≤ length self.now.lines }
        ensures { result
            ≡ length self.now.before + length (lines_text (take index self.now.lines)) }
    {
        self.message.line_offset(self.side, index)
    }

    /// The bytes before the line.
    pub fn before(&self, index: usize) -> &'m [u8]
        requires { index ≤ length self.now.lines }
        ensures { result.now ≡ self.now.before ++ lines_text (take index self.now.lines) }
    {
        bytes_before(self.message.bytes(), self.offset(index))
    }

    /// The bytes from the one line up to the other.
    pub fn between(&self, from: usize, to: usize) -> &'m [u8]
        requires order { from ≤ to }
        requires within { to ≤ length self.now.lines }
        ensures { result.now ≡ lines_text (take (to - from) (drop from self.now.lines)) }
    {
        let start = self.offset(from);
        bytes_before(
            bytes_from(self.message.bytes(), start),
            self.offset(to) - start,
        )
    }

    /// The bytes from the line on.
    pub fn rest_from(&self, index: usize) -> &'m [u8]
        requires { index ≤ length self.now.lines }
        ensures { result.now ≡ lines_text (drop index self.now.lines) ++ self.now.after }
    {
        bytes_from(self.message.bytes(), self.offset(index))
    }
}
