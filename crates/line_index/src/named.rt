//! Where the field lines of a name are, one after the other.

use crate::index::IndexEntry;
use crate::span::LineSpan;
use std::marker::Model;

/// Where the field lines of a name are that are left, in order. A contract sees it as their list.
#[derive(Drop)]
pub struct NamedSpans<'h> {
    spans: &'h [LineSpan],
    // The entries of those that are left.
    left: &'h [IndexEntry],
}

impl<'h> Model for NamedSpans<'h> {
    ghost use Rattle.std.specs.Prelude.{List, map, length, IsTrue};
    ghost use Rattle.line_index.specs.declared.span.LineSpan.{LineSpan};
    ghost use Rattle.line_index.specs.tools.Index.{entry_span, are_inside};

    ghost Value = { List LineSpan };

    ghost view = { λ n. map (entry_span n.spans.now) n.left.now };

    ghost invariant = { λ n. IsTrue (are_inside (length n.spans.now) n.left.now) };
}

impl<'h> NamedSpans<'h> {
    ghost use Rattle.std.specs.Prelude.{◌≡◌, ◌==◌, [], length, map, IsTrue};
    ghost use Rattle.line_index.specs.tools.Index.{entry_span, are_inside};

    /// Where the field lines of these entries are.
    pub(crate) fn new(spans: &'h [LineSpan], left: &'h [IndexEntry]) -> NamedSpans<'h>
        requires { IsTrue (are_inside (length spans.now) left.now) }
        ensures { result ≡ map (entry_span spans.now) left.now }
    {
        NamedSpans { spans, left }
    }

    /// The same once more.
    pub fn again(&self) -> NamedSpans<'h>
        ensures { result ≡ self.now }
    {
        NamedSpans::new(self.spans, self.left)
    }

    /// No field lines.
    pub fn empty() -> NamedSpans<'h>
        ensures { result ≡ [] }
    {
        NamedSpans {
            spans: &[],
            left: &[],
        }
    }

    /// How many are left.
    pub fn len(&self) -> usize
        ensures { result ≡ length self.now }
    {
        self.left.len()
    }

    /// Whether none is left.
    pub fn is_empty(&self) -> bool
        ensures { result ≡ (length self.now == 0) }
    {
        self.left.is_empty()
    }
}

impl<'h> Iterator for NamedSpans<'h> {
    ghost use Rattle.std.specs.Iterator.{YieldsFirst, item_count};

    type Item = LineSpan;

    ghost next_gives = { YieldsFirst (λ spans. spans) };

    ghost remaining = { item_count (λ spans. spans) };

    fn next(&mut self) -> Option<LineSpan> {
        let (first, others) = self.left.split_first()?;
        self.left = others;
        Some(self.spans[first.line])
    }
}
