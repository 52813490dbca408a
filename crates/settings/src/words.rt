//! Words of a configuration for what other crates define.

ghost use Rattle.std.specs.Prelude.{◌≡◌};
ghost use Rattle.settings.specs.Words.{expires_of_word, kind_of_word, scheme_of_word};

use component_ids::{FieldKind, Scheme};

/// The scheme that the word names; none where it names none.
pub fn scheme_of_word(word: &[u8]) -> Option<Scheme>
    ensures { result ≡ scheme_of_word word.now }
{
    if word == b"http".as_slice() {
        return Some(Scheme::Http);
    }
    if word == b"https".as_slice() {
        return Some(Scheme::Https);
    }
    None
}

/// The kind of structured field that the word names; none where it names none.
pub fn kind_of_word(word: &[u8]) -> Option<FieldKind>
    ensures { result ≡ kind_of_word word.now }
{
    if word == b"item".as_slice() {
        return Some(FieldKind::Item);
    }
    if word == b"list".as_slice() {
        return Some(FieldKind::List);
    }
    if word == b"dictionary".as_slice() {
        return Some(FieldKind::Dictionary);
    }
    None
}

/// Whether the word requires the parameter `expires`; none where it is no word of a policy.
pub fn expires_of_word(word: &[u8]) -> Option<bool>
    ensures { result ≡ expires_of_word word.now }
{
    if word == b"optional".as_slice() {
        return Some(false);
    }
    if word == b"require".as_slice() {
        return Some(true);
    }
    None
}
