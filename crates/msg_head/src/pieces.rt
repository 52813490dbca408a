//! The pieces of a line's value.

use crate::blanks::{skip_gap, split_text};

/// The pieces of a line's value that are left.
#[derive(Clone, Copy, Drop)]
pub struct Pieces<'m> {
    // The bytes of the raw value that are left.
    pub(crate) left: &'m [u8],
    // Whether a space comes before a further text.
    pub(crate) is_due: bool,
}

impl<'m> Iterator for Pieces<'m> {
    ghost use Rattle.std.specs.Iterator.{at_most};
    ghost use Rattle.byte_grammar.specs.Pieces.{YieldsPiece};
    ghost use Rattle.msg_head.specs.LeftInLines.{value_left, pieces_bound};

    type Item = &'m [u8];

    ghost next_gives = { YieldsPiece value_left };

    ghost remaining = { λ pieces. at_most (pieces_bound pieces) };

    fn next(&mut self) -> Option<&'m [u8]> {
        let left = skip_gap(self.left)?;
        if self.is_due {
            self.left = left;
            self.is_due = false;
            return Some(b" ");
        }
        let (text, rest) = split_text(left);
        self.left = rest;
        self.is_due = true;
        Some(text)
    }
}

impl<'m> Pieces<'m> {
    ghost use Rattle.std.specs.Prelude.{◌≡◌, []};
    ghost use Rattle.msg_head.specs.LeftInLines.{value_left};

    /// No pieces.
    pub fn empty() -> Pieces<'m>
        ensures { value_left result ≡ [] }
    {
        Pieces {
            left: &[],
            is_due: false,
        }
    }
}
