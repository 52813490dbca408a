//! Blanks and line ends around the texts of a raw value.

ghost use Rattle.std.specs.Prelude.{◌≡◌, ◌<◌, ◌≤◌, [], ◌∷◌, length, reverse, IsTrue, IfSome, IfNone};
ghost use Rattle.byte_grammar.specs.Language.{starts_in};
ghost use Rattle.msg_head.specs.Values.{is_end, without_first_blanks, texts_of};
ghost use Rattle.msg_head.specs.tools.Walks.{is_solid, IsLineBefore};

use byte_grammar::is_blank;
use memchr::memchr2;

// Whether the byte is CR or LF.
fn is_end(byte: u8) -> bool
    ensures { result ≡ is_end byte }
{
    byte == b'\r' || byte == b'\n'
}

#[tactic(auto, using(crate::proofs::TextLaws::texts_blank, crate::proofs::TextLaws::texts_end))]
/// The bytes from the first that is no blank and no line end on.
pub(crate) fn skip_gap(bytes: &[u8]) -> Option<&[u8]>
    ensures some { IfSome result (λ left. (texts_of left.now ≡ texts_of bytes.now)
        × IsTrue (starts_in is_solid left.now) × (length left.now ≤ length bytes.now)) }
    ensures none { IfNone result (texts_of bytes.now ≡ []) }
{
    let mut left = bytes;
    'gap: loop {
        let (first, others) = left.split_first()?;
        if !is_blank(*first) && !is_end(*first) {
            return Some(left);
        }
        left = others;
    }
}

// The text without the blanks at its end.
fn skip_last(text: &[u8]) -> &[u8]
    ensures { reverse result.now ≡ without_first_blanks (reverse text.now) }
{
    let mut left = text;
    while let Some((last, others)) = left.split_last() {
        if !is_blank(*last) {
            return left;
        }
        left = others;
    }
    left
}

// The bytes before the first line end, and those from it on.
fn split_at_end(bytes: &[u8]) -> (&[u8], &[u8])
    ensures { IsLineBefore result.0.now result.1.now bytes.now }
{
    match memchr2(b'\r', b'\n', bytes) {
        Some(n) => bytes.split_at(n),
        None => (bytes, &[]),
    }
}

/// The text that is first, and what comes after its line.
pub(crate) fn split_text(bytes: &[u8]) -> (&[u8], &[u8])
    requires { IsTrue (starts_in is_solid bytes.now) }
    ensures texts { texts_of bytes.now ≡ result.0.now ∷ texts_of result.1.now }
    ensures shorter { length result.1.now < length bytes.now }
{
    let (line, rest) = split_at_end(bytes);
    (skip_last(line), rest)
}
