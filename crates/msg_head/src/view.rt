//! The view of a head.

ghost use Rattle.std.specs.Prelude.{◌≡◌, ◌+◌, ◌<◌, ◌≤◌, length, filter, take, slice_get, Some};
ghost use Rattle.std.specs.List.{flat_map};
ghost use Rattle.msg_head.specs.Heads.{head_text};
ghost use Rattle.msg_head.specs.Lines.{line_text};
ghost use Rattle.msg_head.specs.Names.{has_name};
ghost use Rattle.msg_head.specs.Starts.{start_text};
ghost use Rattle.msg_head.specs.Views.{View, Fills, head_of, lines_of, field_line_of, start_line_of};

use crate::line::LineView;
use crate::named_lines::NamedFieldLines;
use crate::section_lines::SectionLines;
use crate::start::Start;
use std::marker::Model;

/// A head, borrowed from its bytes. A contract sees it as the bytes, the start line and the offsets
/// of the field lines, of which the head that they spell is a function. These fill the bytes.
#[derive(Drop)]
pub struct HeadView<'m> {
    start: Start<'m>,
    section: SectionLines<'m>,
}

impl<'m> Model for HeadView<'m> {
    ghost use Rattle.msg_head.specs.Views.{View, Fills, start_line_of};

    ghost Value = { View };

    ghost view = { λ h. record {
      bytes = h.section.bytes;
      start = start_line_of h.start;
      spans = h.section.spans;
    } };

    ghost invariant = { λ h. Fills (record {
      bytes = h.section.bytes;
      start = start_line_of h.start;
      spans = h.section.spans;
    }) };
}

impl<'m> HeadView<'m> {
    /// The view of a head of this start line and these field lines.
    pub(crate) fn new(start: Start<'m>, section: SectionLines<'m>) -> HeadView<'m>
        requires { Fills (record {
          bytes = section.bytes;
          start = start_line_of start;
          spans = section.spans;
        }) }
        ensures { result ≡ record {
          bytes = section.entry.bytes;
          start = start_line_of start.entry;
          spans = section.entry.spans;
        } }
    {
        HeadView { start, section }
    }

    /// The bytes of the head, which are its text, the empty line at its end included.
    pub fn bytes(&self) -> &'m [u8]
        ensures bytes { result.now ≡ self.now.bytes }
        ensures len { length result.now ≡ length (head_text (head_of self.now)) }
    {
        self.section.bytes()
    }

    /// The start line.
    pub fn start(&self) -> Start<'m>
        ensures { start_line_of result ≡ self.now.start }
    {
        self.start
    }

    /// How many field lines there are.
    pub fn line_count(&self) -> usize
        ensures count { result ≡ length self.now.spans }
        ensures fills { Fills self.now }
    {
        self.section.count()
    }

    /// The field line with that index in their order.
    pub fn line(&self, index: usize) -> LineView<'m>
        requires { index < length self.now.spans }
        ensures { slice_get (lines_of self.now) index ≡ Some (field_line_of result) }
    {
        self.section.line(index)
    }

    /// The offset of the field line with that index, or of the empty line where it is their count.
    pub fn line_offset(&self, index: usize) -> usize
        requires { index ≤ length self.now.spans }
        ensures { result ≡ length (start_text self.now.start)
            + length (flat_map line_text (take index (lines_of self.now))) }
    {
        self.section.line_offset(index)
    }

    /// The field lines that have the name, which is in lower case, in order, found by halving.
    pub fn lines_named(&self, name: &[u8]) -> NamedFieldLines<'_, 'm>
        ensures { result ≡ filter (has_name name.now) (lines_of self.now) }
    {
        self.section.lines_named(name)
    }
}
