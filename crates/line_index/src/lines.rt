//! Field lines, and their order by name.

use crate::index::{IndexEntry, index_of, named_part};
use crate::named::NamedSpans;
use crate::span::LineSpan;
use std::alloc::{AllocError, Global};
use std::marker::Model;

/// Field lines at their offsets in the bytes. A contract sees it as both.
#[derive(Drop)]
pub struct LineIndex<'m> {
    bytes: &'m [u8],
    spans: Vec<LineSpan>,
    // Those of the lines in order of their names in lower case, and then of the lines.
    by_name: Vec<IndexEntry>,
}

impl<'m> Model for LineIndex<'m> {
    ghost use Rattle.line_index.specs.Spans.{SpannedLines};
    ghost use Rattle.line_index.specs.tools.Index.{IsIndexOf};

    ghost Value = { SpannedLines };

    ghost view = { λ l. record { bytes = l.bytes.now; spans = l.spans.items } };

    ghost invariant = { λ l. IsIndexOf l.bytes.now l.spans.items l.by_name.items };
}

impl<'m> LineIndex<'m> {
    ghost use Rattle.std.specs.Prelude.{◌≡◌, ◌==◌, ◌<◌, length, filter, slice_get, Some, IfOk};
    ghost use Rattle.line_index.specs.Spans.{is_span_named};

    // Inlined, since what it gives is large and isn't moved then.
    /// The field lines that are at these offsets. The one error is that no memory is found.
    #[inline(always)]
    pub fn new(
        alloc: Global,
        bytes: &'m [u8],
        spans: Vec<LineSpan>,
    ) -> Result<LineIndex<'m>, AllocError>
        ensures { IfOk result
            (λ lines. lines ≡ record { bytes = bytes.now; spans = spans.items }) }
    {
        let by_name = index_of(alloc, bytes, &spans)?;
        Ok(LineIndex {
            bytes,
            spans,
            by_name,
        })
    }

    /// The bytes.
    pub fn bytes(&self) -> &'m [u8]
        ensures { result.now ≡ self.now.bytes }
    {
        self.bytes
    }

    /// How many field lines there are.
    pub fn len(&self) -> usize
        ensures { result ≡ length self.now.spans }
    {
        self.spans.len()
    }

    /// Whether there is none.
    pub fn is_empty(&self) -> bool
        ensures { result ≡ (length self.now.spans == 0) }
    {
        self.spans.is_empty()
    }

    /// Where the field line with that index in their order is.
    pub fn span(&self, index: usize) -> LineSpan
        requires { index < length self.now.spans }
        ensures { slice_get self.now.spans index ≡ Some result }
    {
        self.spans[index]
    }

    /// Where the field lines are that have the name, which is in lower case, in order, found by
    /// halving.
    pub fn named(&self, name: &[u8]) -> NamedSpans<'_>
        ensures { result ≡ filter (is_span_named self.now.bytes name.now) self.now.spans }
    {
        let part = named_part(self.bytes, &self.spans, &self.by_name, name);
        NamedSpans::new(&self.spans, part)
    }
}
