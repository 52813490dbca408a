//! The field lines of a head or a trailer section, and their order by name.

use crate::line::{LineView, line_at};
use crate::named_lines::NamedFieldLines;
use line_index::{LineIndex, LineSpan};
use std::alloc::{AllocError, Global};
use std::marker::Model;

/// The field lines at their offsets in the bytes. A contract sees it as both.
#[derive(Drop)]
pub(crate) struct SectionLines<'m> {
    lines: LineIndex<'m>,
}

impl<'m> Model for SectionLines<'m> {
    ghost use Rattle.std.specs.Prelude.{length, IsTrue};
    ghost use Rattle.std.specs.List.{list_all};
    ghost use Rattle.msg_head.specs.TrailerViews.{TrailerParts};
    ghost use Rattle.msg_head.specs.Views.{lies_in};

    ghost Value = { TrailerParts };

    ghost view = { λ s. record { bytes = s.lines.bytes; spans = s.lines.spans } };

    ghost invariant = { λ s. IsTrue (list_all (lies_in (length s.lines.bytes)) s.lines.spans) };
}

impl<'m> SectionLines<'m> {
    ghost use Rattle.std.specs.Prelude.{◌≡◌, ℕ, ◌+◌, ◌<◌, ◌≤◌, length, filter, take, slice_get, Some, IsTrue, IfOk};
    ghost use Rattle.std.specs.List.{list_all, flat_map};
    ghost use Rattle.msg_head.specs.Lines.{line_text};
    ghost use Rattle.msg_head.specs.Names.{has_name};
    ghost use Rattle.msg_head.specs.Views.{lies_in, field_line_of, FollowEachOther};
    ghost use Rattle.msg_head.specs.TrailerViews.{trailer_lines_of};

    /// The field lines that are at these offsets.
    #[inline(always)]
    pub(crate) fn new(
        alloc: Global,
        bytes: &'m [u8],
        spans: Vec<LineSpan>,
    ) -> Result<SectionLines<'m>, AllocError>
        requires { IsTrue (list_all (lies_in (length bytes.now)) spans.items) }
        ensures { IfOk result
            (λ lines. lines ≡ record { bytes = bytes.now; spans = spans.items }) }
    {
        let lines = LineIndex::new(alloc, bytes, spans)?;
        Ok(SectionLines { lines })
    }

    /// The bytes.
    pub(crate) fn bytes(&self) -> &'m [u8]
        ensures bytes { result.now ≡ self.now.bytes }
        ensures inside { IsTrue (list_all (lies_in (length self.now.bytes)) self.now.spans) }
    {
        self.lines.bytes()
    }

    /// How many field lines there are.
    pub(crate) fn count(&self) -> usize
        ensures { result ≡ length self.now.spans }
    {
        self.lines.len()
    }

    /// The field line with that index in their order.
    pub(crate) fn line(&self, index: usize) -> LineView<'m>
        requires { index < length self.now.spans }
        ensures { slice_get (trailer_lines_of self.now) index ≡ Some (field_line_of result) }
    {
        line_at(self.lines.bytes(), self.lines.span(index))
    }

    /// The offset of the field line with that index, or of the empty line where it is their count.
    pub(crate) fn line_offset(&self, index: usize) -> usize
        requires within { index ≤ length self.now.spans }
        requires ends { 2 ≤ length self.now.bytes }
        ensures { (from end : ℕ) → FollowEachOther from self.now.spans end
            → length self.now.bytes ≡ end + 2
            → result ≡ from + length (flat_map line_text (take index (trailer_lines_of self.now))) }
    {
        if index < self.lines.len() {
            self.lines.span(index).name
        } else {
            self.lines.bytes().len() - 2
        }
    }

    /// The field lines that have the name, which is in lower case, in order.
    pub(crate) fn lines_named(&self, name: &[u8]) -> NamedFieldLines<'_, 'm>
        ensures { result ≡ filter (has_name name.now) (trailer_lines_of self.now) }
    {
        NamedFieldLines::new(self.lines.bytes(), self.lines.named(name))
    }
}
