//! The values of a field's lines, joined.

use msg_head::{NamedFieldLines, Pieces};

/// The pieces of a field's combined value that are left.
#[derive(Drop)]
pub struct Combined<'a, 'm> {
    // What is left of the current line's value.
    current: Pieces<'m>,
    // The lines after the current one.
    lines: NamedFieldLines<'a, 'm>,
}

impl<'a, 'm> Iterator for Combined<'a, 'm> {
    ghost use Rattle.std.specs.Iterator.{at_most};
    ghost use Rattle.byte_grammar.specs.Pieces.{YieldsPiece};
    ghost use Rattle.msg_body.specs.LeftInFields.{combined_left, combined_bound};

    type Item = &'m [u8];

    ghost next_gives = { YieldsPiece combined_left };

    ghost remaining = { λ combined. at_most (combined_bound combined) };

    fn next(&mut self) -> Option<&'m [u8]> {
        if let Some(piece) = self.current.next() {
            return Some(piece);
        }
        let line = self.lines.next()?;
        self.current = line.value_pieces();
        Some(b", ")
    }
}

impl<'a, 'm> Combined<'a, 'm> {
    ghost use Rattle.std.specs.Prelude.{◌≡◌};
    ghost use Rattle.msg_head.specs.Values.{joined_value};
    ghost use Rattle.msg_body.specs.LeftInFields.{combined_left};

    /// All pieces of the values of these lines, joined.
    pub(crate) fn new(lines: NamedFieldLines<'a, 'm>) -> Combined<'a, 'm>
        ensures { combined_left result ≡ joined_value lines.entry }
    {
        let mut others = lines;
        let current = match others.next() {
            Some(line) => line.value_pieces(),
            None => Pieces::empty(),
        };
        Combined {
            current,
            lines: others,
        }
    }
}
