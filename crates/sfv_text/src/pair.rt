//! A key with its value.

use byte_grammar::Text;

/// A key and its value: a parameter, or a member of a Dictionary.
///
/// In a structured field a key is a lower-case letter or `*`, and after it lower-case letters,
/// digits and `_-.*` (RFC 9651 section 3.1.2).
#[derive(Debug, Drop)]
pub struct Pair<V> {
    pub key: Text,
    pub value: V,
}
