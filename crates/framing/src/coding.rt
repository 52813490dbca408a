//! The transfer coding.

ghost use Rattle.std.specs.Prelude.{◌≡◌, ◌≢◌, ◌++◌, ℕ, List, IfSome, IfNone};
ghost use Rattle.std.specs.Str.{str_to_ascii_lowercase};
ghost use Rattle.msg_head.specs.Values.{value};
ghost use Rattle.framing.specs.Framings.{is_chunked, are_accepted_codings};
ghost use Rattle.framing.specs.tools.NamedLines.{HaveValues};

use crate::named::NamedLines;
use msg_head::LineView;

// What comes after the piece, where the text begins with it, in which case doesn't count.
fn rest_after<'t>(piece: &[u8], text: &'t [u8]) -> Option<&'t [u8]>
    ensures some { IfSome result (λ rest. str_to_ascii_lowercase text.now
        ≡ str_to_ascii_lowercase piece.now ++ str_to_ascii_lowercase rest.now) }
    ensures none { IfNone result ((rest : List ℕ)
        → str_to_ascii_lowercase text.now ≢ str_to_ascii_lowercase piece.now ++ rest) }
{
    let (first, rest) = text.split_at_checked(piece.len())?;
    if !first.eq_ignore_ascii_case(piece) {
        return None;
    }
    Some(rest)
}

// Whether the line's value is `chunked`.
fn is_chunked(line: LineView<'_>) -> bool
    ensures { result ≡ is_chunked (value line.entry.raw.now) }
{
    let mut left = b"chunked".as_slice();
    for piece in line.value_pieces() {
        let Some(rest) = rest_after(piece, left) else {
            return false;
        };
        left = rest;
    }
    left.is_empty()
}

/// Whether these lines are accepted in a message of that version.
pub(crate) fn are_accepted_codings(lines: NamedLines<'_>, version: &[u8]) -> bool
    ensures { (texts : List (List ℕ)) → HaveValues lines.entry texts
        → result ≡ are_accepted_codings version.now texts }
{
    match lines {
        NamedLines::None => true,
        NamedLines::One(line) => is_chunked(line) && version == b"HTTP/1.1".as_slice(),
        NamedLines::Many => false,
    }
}
