//! The number that a `Content-Length` line has.

ghost use Rattle.std.specs.Prelude.{◌≡◌, ◌++◌, ◌∷◌, [], ℕ, List, IsTrue, IsFalse, IfSome, IfNone};
ghost use Rattle.std.specs.Str.Parse.{digits_value};
ghost use Rattle.msg_head.specs.Values.{value};
ghost use Rattle.framing.specs.Framings.{is_length, are_accepted_lengths, first_length};
ghost use Rattle.framing.specs.tools.Digits.{AreDigitsOf, BeginsNoLength};
ghost use Rattle.framing.specs.tools.NamedLines.{HaveValues};

use crate::limits::MAX_LENGTH_DIGITS;
use crate::named::NamedLines;
use msg_head::LineView;

// Digits that were read.
#[derive(Clone, Copy)]
struct Digits {
    count: usize,
    // The number that they spell.
    number: usize,
}

impl Digits {
    // The digits with one more, where the byte is one and they are few enough.
    fn with_digit(self, byte: u8) -> Option<Digits>
        requires { (text : List ℕ) × AreDigitsOf text self }
        ensures some { IfSome result (λ digits. (text : List ℕ) → AreDigitsOf text self
            → AreDigitsOf (text ++ byte ∷ []) digits) }
        ensures none { IfNone result ((text : List ℕ) → AreDigitsOf text self
            → BeginsNoLength (text ++ byte ∷ [])) }
    {
        if self.count == MAX_LENGTH_DIGITS || !byte.is_ascii_digit() {
            return None;
        }
        Some(Digits {
            count: self.count + 1,
            number: self.number * 10 + usize::from(byte - b'0'),
        })
    }

    // The digits and then those of the piece.
    fn with_piece(self, piece: &[u8]) -> Option<Digits>
        requires { (text : List ℕ) × AreDigitsOf text self }
        ensures some { IfSome result (λ digits. (text : List ℕ) → AreDigitsOf text self
            → AreDigitsOf (text ++ piece.now) digits) }
        ensures none { IfNone result ((text : List ℕ) → AreDigitsOf text self
            → BeginsNoLength (text ++ piece.now)) }
    {
        let mut digits = self;
        for byte in piece {
            digits = digits.with_digit(*byte)?;
        }
        Some(digits)
    }
}

// The digits that the line's value is.
fn digits_of(line: LineView<'_>) -> Option<Digits>
    ensures some { IfSome result (λ digits. AreDigitsOf (value line.entry.raw.now) digits) }
    ensures none { IfNone result (IsFalse (is_length (value line.entry.raw.now))) }
{
    let mut digits = Digits {
        count: 0,
        number: 0,
    };
    for piece in line.value_pieces() {
        digits = digits.with_piece(piece)?;
    }
    Some(digits)
}

// The number that the line's value spells, where it is a length.
fn length_of(line: LineView<'_>) -> Option<usize>
    ensures some { IfSome result (λ number. IsTrue (is_length (value line.entry.raw.now))
        × (number ≡ digits_value 10 (value line.entry.raw.now))) }
    ensures none { IfNone result (IsFalse (is_length (value line.entry.raw.now))) }
{
    let digits = digits_of(line)?;
    if digits.count == 0 {
        return None;
    }
    Some(digits.number)
}

/// The length that these lines have, 0 where there is none, and None where they aren't accepted.
pub(crate) fn read_length(lines: NamedLines<'_>) -> Option<usize>
    ensures some { IfSome result (λ number. (texts : List (List ℕ)) → HaveValues lines.entry texts
        → IsTrue (are_accepted_lengths texts) × (number ≡ first_length texts)) }
    ensures none { IfNone result ((texts : List (List ℕ)) → HaveValues lines.entry texts
        → IsFalse (are_accepted_lengths texts)) }
{
    match lines {
        NamedLines::None => Some(0),
        NamedLines::One(line) => length_of(line),
        NamedLines::Many => None,
    }
}
