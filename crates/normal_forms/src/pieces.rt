//! Texts in pieces, compared.

ghost use Rattle.std.specs.Prelude.{◌≡◌, ◌↔◌, [], IsTrue};
ghost use Rattle.normal_forms.specs.tools.Pieces.{text_left};

use msg_body::{Combined, ContentPieces};
use msg_head::Pieces;

/// The pieces of a text that are left: of a line's value, of the value of a field, of content.
#[derive(Drop)]
pub(crate) enum TextPieces<'a, 'm> {
    Line(Pieces<'m>),
    Field(Combined<'a, 'm>),
    Content(ContentPieces<'m>),
}

impl<'a, 'm> Iterator for TextPieces<'a, 'm> {
    ghost use Rattle.std.specs.Iterator.{at_most};
    ghost use Rattle.byte_grammar.specs.Pieces.{YieldsPiece};
    ghost use Rattle.normal_forms.specs.tools.Pieces.{text_left, text_bound};

    type Item = &'m [u8];

    ghost next_gives = { YieldsPiece text_left };

    ghost remaining = { λ pieces. at_most (text_bound pieces) };

    fn next(&mut self) -> Option<&'m [u8]> {
        match self {
            TextPieces::Line(pieces) => pieces.next(),
            TextPieces::Field(pieces) => pieces.next(),
            TextPieces::Content(pieces) => pieces.next(),
        }
    }
}

/// Whether nothing is left.
fn is_over(pieces: TextPieces<'_, '_>) -> bool
    ensures { IsTrue result ↔ (text_left pieces.entry ≡ []) }
{
    for piece in pieces {
        if !piece.is_empty() {
            return false;
        }
    }
    true
}

/// Whether the pieces of the one, joined, are those of the other.
pub(crate) fn are_same_text(one: TextPieces<'_, '_>, other: TextPieces<'_, '_>) -> bool
    ensures { IsTrue result ↔ (text_left one.entry ≡ text_left other.entry) }
{
    let mut our_pieces = one;
    let mut their_pieces = other;
    let mut ours: &[u8] = &[];
    let mut theirs: &[u8] = &[];
    'pieces: loop {
        if ours.is_empty() {
            match our_pieces.next() {
                Some(piece) => ours = piece,
                None => return theirs.is_empty() && is_over(their_pieces),
            }
        } else if theirs.is_empty() {
            match their_pieces.next() {
                Some(piece) => theirs = piece,
                None => return false,
            }
        } else {
            let count = ours.len().min(theirs.len());
            let (our_part, our_rest) = ours.split_at(count);
            let (their_part, their_rest) = theirs.split_at(count);
            if our_part != their_part {
                return false;
            }
            ours = our_rest;
            theirs = their_rest;
        }
    }
}
