//! The value of a line.

ghost use Rattle.std.specs.Prelude.{◌≡◌, ◌*◌, length, IsFalse, IfSome, IfNone};
ghost use Rattle.std.specs.List.{list_all};
ghost use Rattle.byte_grammar.specs.Classes.{is_visible};
ghost use Rattle.msg_head.specs.RawValues.{IsRaw};
ghost use Rattle.msg_head.specs.Values.{IsLineValue, value};
ghost use Rattle.msg_head.specs.LeftInLines.{value_left, pieces_bound};

use crate::blanks::{skip_gap, split_text};
use crate::line::LineView;
use crate::pieces::Pieces;

impl<'m> LineView<'m> {
    /// The pieces of the line's value, borrowed from its message (RFC 9421 section 2.1).
    pub fn value_pieces(self) -> Pieces<'m>
        ensures value { value_left result ≡ value self.entry.raw.now }
        ensures folds { IsRaw self.entry.raw.now
            → IsLineValue self.entry.raw.now (value_left result) }
        ensures few { pieces_bound result ≡ 2 * length self.entry.raw.now }
    {
        Pieces {
            left: self.raw,
            is_due: false,
        }
    }

    /// The line's value as it is in the message. None where a fold is within it, for which the
    /// value has a space (RFC 9112 section 5.2): of None a clause says only that the value isn't
    /// visible ASCII alone.
    pub fn whole_value(self) -> Option<&'m [u8]>
        ensures some { IfSome result (λ text. text.now ≡ value self.entry.raw.now) }
        ensures none { IfNone result (IsFalse (list_all is_visible (value self.entry.raw.now))) }
    {
        let Some(left) = skip_gap(self.raw) else {
            return Some(b"");
        };
        let (text, rest) = split_text(left);
        if let Some(_) = skip_gap(rest) {
            return None;
        }
        Some(text)
    }
}
