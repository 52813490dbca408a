//! What is fed of the lines of a field.

ghost use Rattle.std.specs.Prelude.{◌≡◌, ◌==◌, ◌++◌, ◌∷◌, [], ℕ, List, length};
ghost use Rattle.std.specs.Char.{is_ascii};
ghost use Rattle.std.specs.List.{list_all};
ghost use Rattle.msg_head.specs.Values.{value, line_values, joined_value};
ghost use Rattle.component_values.specs.Values.{byte_sequences};

use crate::byte_sequence::feed_byte_sequence;
use msg_body::joined_pieces;
use msg_head::{LineView, NamedFieldLines};
use sfv_text::Absorb;

/// Whether the text is ASCII.
pub(crate) fn is_ascii_text(text: &[u8]) -> bool
    ensures { result ≡ list_all is_ascii text.now }
{
    text.is_ascii()
}

/// Whether the combined value of the lines is ASCII.
pub(crate) fn is_ascii(lines: &NamedFieldLines<'_, '_>) -> bool
    ensures { result ≡ list_all is_ascii (joined_value lines.now) }
{
    for piece in joined_pieces(lines.again()) {
        if !piece.is_ascii() {
            return false;
        }
    }
    true
}

/// Feeds the combined value of the lines.
pub(crate) fn feed_combined<A: Absorb>(lines: &NamedFieldLines<'_, '_>, into: &mut A)
    ensures { (text : List ℕ) → A.absorbed into.old text
        → A.absorbed into.new (text ++ joined_value lines.now) }
{
    for piece in joined_pieces(lines.again()) {
        into.absorb(piece);
    }
}

/// Feeds the value of one more line as a Byte Sequence, after a comma and a space where others come
/// before it.
fn feed_next_sequence<A: Absorb>(is_first: bool, line: LineView<'_>, into: &mut A)
    ensures { (text : List ℕ) (values : List (List ℕ)) → is_first ≡ (length values == 0)
        → A.absorbed into.old (text ++ byte_sequences values) → A.absorbed into.new
        (text ++ byte_sequences (values ++ value line.entry.raw.now ∷ [])) }
{
    if is_first {
        feed_byte_sequence(line, into);
        return;
    }
    into.absorb(b", ");
    feed_byte_sequence(line, into);
}

/// Feeds the value of each line as a Byte Sequence, with a comma and a space between them (RFC 9421
/// section 2.1.3).
pub(crate) fn feed_byte_sequences<A: Absorb>(lines: &NamedFieldLines<'_, '_>, into: &mut A)
    ensures { (text : List ℕ) → A.absorbed into.old text
        → A.absorbed into.new (text ++ byte_sequences (line_values lines.now)) }
{
    let mut is_first = true;
    for line in lines.again() {
        feed_next_sequence(is_first, line, into);
        is_first = false;
    }
}
