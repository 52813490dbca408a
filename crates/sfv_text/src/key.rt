//! Keys of Dictionaries and of parameters (RFC 9651 section 3.1.2), and what a String can have.

ghost use Rattle.std.specs.Prelude.{◌≡◌};
ghost use Rattle.std.specs.List.{list_all};
ghost use Rattle.sfv_text.specs.Classes.{is_key_first, is_key_rest, is_key, is_string_byte};

fn is_key_first(byte: u8) -> bool
    ensures { result ≡ is_key_first byte }
{
    byte.is_ascii_lowercase() || byte == b'*'
}

fn is_key_rest(byte: u8) -> bool
    ensures { result ≡ is_key_rest byte }
{
    byte.is_ascii_lowercase() || byte.is_ascii_digit() || matches!(byte, b'_' | b'-' | b'.' | b'*')
}

fn are_key_rest(bytes: &[u8]) -> bool
    ensures { result ≡ list_all is_key_rest bytes.now }
{
    bytes.iter().all(|byte| is_key_rest(*byte))
}

/// Whether the text is a key: a lower-case letter or `*`, and after it lower-case letters,
/// digits and `_-.*`.
pub fn is_key(text: &[u8]) -> bool
    ensures { result ≡ is_key text.now }
{
    match text.split_first() {
        None => false,
        Some((first, others)) => { is_key_first(*first) && are_key_rest(others) }
    }
}

fn is_string_byte(byte: u8) -> bool
    ensures { result ≡ is_string_byte byte }
{
    matches!(byte, b' '..=b'~')
}

/// Whether a String can have these bytes: they are printable ASCII (RFC 9651 section 3.3.3).
pub fn are_string_bytes(bytes: &[u8]) -> bool
    ensures { result ≡ list_all is_string_byte bytes.now }
{
    bytes.iter().all(|byte| is_string_byte(*byte))
}
