//! The field lines of a name, one after the other.

use crate::line::{LineView, line_at};
use line_index::NamedSpans;
use std::marker::Model;

/// The field lines of a name that are left, in order. A contract sees it as their list.
#[derive(Drop)]
pub struct NamedFieldLines<'h, 'm> {
    bytes: &'m [u8],
    // Where those are that are left.
    left: NamedSpans<'h>,
}

impl<'h, 'm> Model for NamedFieldLines<'h, 'm> {
    ghost use Rattle.std.specs.Prelude.{List, map, length, IsTrue};
    ghost use Rattle.std.specs.List.{list_all};
    ghost use Rattle.msg_head.specs.Lines.{FieldLine};
    ghost use Rattle.msg_head.specs.Views.{line_at, lies_in};

    ghost Value = { List FieldLine };

    ghost view = { λ n. map (line_at n.bytes.now) n.left };

    ghost invariant = { λ n. IsTrue (list_all (lies_in (length n.bytes.now)) n.left) };
}

impl<'h, 'm> NamedFieldLines<'h, 'm> {
    ghost use Rattle.std.specs.Prelude.{◌≡◌, ◌==◌, [], length, map, IsTrue};
    ghost use Rattle.std.specs.List.{list_all};
    ghost use Rattle.msg_head.specs.Views.{line_at, lies_in};

    /// The field lines that are there.
    pub(crate) fn new(bytes: &'m [u8], left: NamedSpans<'h>) -> NamedFieldLines<'h, 'm>
        requires { IsTrue (list_all (lies_in (length bytes.now)) left) }
        ensures { result ≡ map (line_at bytes.now) left.entry }
    {
        NamedFieldLines { bytes, left }
    }

    /// The same once more.
    pub fn again(&self) -> NamedFieldLines<'h, 'm>
        ensures { result ≡ self.now }
    {
        NamedFieldLines::new(self.bytes, self.left.again())
    }

    /// No field lines.
    pub fn empty() -> NamedFieldLines<'h, 'm>
        ensures { result ≡ [] }
    {
        NamedFieldLines {
            bytes: &[],
            left: NamedSpans::empty(),
        }
    }

    /// How many are left.
    pub fn len(&self) -> usize
        ensures { result ≡ length self.now }
    {
        self.left.len()
    }

    /// Whether none is left.
    pub fn is_empty(&self) -> bool
        ensures { result ≡ (length self.now == 0) }
    {
        self.left.is_empty()
    }
}

impl<'h, 'm> Iterator for NamedFieldLines<'h, 'm> {
    ghost use Rattle.std.specs.Iterator.{YieldsFirstBy, item_count};
    ghost use Rattle.msg_head.specs.Views.{field_line_of};

    type Item = LineView<'m>;

    ghost next_gives = { YieldsFirstBy field_line_of (λ lines. lines) };

    ghost remaining = { item_count (λ lines. lines) };

    fn next(&mut self) -> Option<LineView<'m>> {
        let span = self.left.next()?;
        Some(line_at(self.bytes, span))
    }
}
