//! Tests of texts.

ghost use Rattle.std.specs.Prelude.{◌≡◌, ◌≢◌, ◌++◌, ℕ, List, IfSome, IfNone};
ghost use Rattle.std.specs.List.{list_all, list_any};
ghost use Rattle.std.specs.Str.{bytes_eq};
ghost use Rattle.byte_grammar.specs.Classes.{is_field_name, is_name_byte, is_token};

use crate::class::{ByteClass, Class, is_tchar};

/// Whether the text is one of the texts.
pub fn is_listed(texts: &[&[u8]], text: &[u8]) -> bool
    ensures { result ≡ list_any (λ t. bytes_eq text.now t.now) texts.now }
{
    texts.iter().any(|other| text == *other)
}

/// Whether each of the bytes is of the class.
pub fn allows_all<C: ByteClass>(class: C, bytes: &[u8]) -> bool
    ensures { result ≡ list_all (C.members class) bytes.now }
{
    bytes.iter().all(|byte| class.allows(*byte))
}

/// Whether the text is a token (RFC 9110 section 5.6.2).
pub fn is_token(text: &[u8]) -> bool
    ensures { result ≡ is_token text.now }
{
    !text.is_empty() && allows_all(Class::Tchar, text)
}

fn is_name_byte(byte: u8) -> bool
    ensures { result ≡ is_name_byte byte }
{
    is_tchar(byte) && !byte.is_ascii_uppercase()
}

fn are_name_bytes(bytes: &[u8]) -> bool
    ensures { result ≡ list_all is_name_byte bytes.now }
{
    bytes.iter().all(|byte| is_name_byte(*byte))
}

/// Whether the text is a field name in lower case, as component identifiers have it (RFC 9421
/// section 2.1).
pub fn is_field_name(name: &[u8]) -> bool
    ensures { result ≡ is_field_name name.now }
{
    !name.is_empty() && are_name_bytes(name)
}

/// What comes after the prefix, where the bytes begin with it.
pub fn rest_after<'m>(prefix: &[u8], bytes: &'m [u8]) -> Option<&'m [u8]>
    ensures some { IfSome result (λ rest. bytes.now ≡ prefix.now ++ rest.now) }
    ensures none { IfNone result ((rest : List ℕ) → bytes.now ≢ prefix.now ++ rest) }
{
    bytes.strip_prefix(prefix)
}
