//! The classes of bytes of structured fields that have several bytes.

ghost use Rattle.std.specs.Prelude.{◌≡◌};
ghost use Rattle.sfv_text.specs.Range.{is_key_rest};
ghost use Rattle.sfv_read.specs.Class.{members, is_base64, is_unescaped};

use byte_grammar::{ByteClass, Class, is_tchar};

/// The classes of bytes that structured fields have of their own (RFC 9651 section 3).
#[derive(Clone, Copy)]
pub enum SfClass {
    /// What a String has after a backslash alone.
    Escapable,
    /// What a String has as it is.
    Unescaped,
    /// What a key begins with.
    KeyFirst,
    /// What a key has after its first byte.
    KeyRest,
    /// What a Token begins with.
    TokenFirst,
    /// What a Token has after its first byte.
    TokenRest,
    /// What says which Boolean it is.
    Bit,
    /// The base64 alphabet (RFC 4648 section 4).
    Base64,
    /// What a Display String has as it is.
    Unencoded,
}

impl ByteClass for SfClass {
    ghost members = { members };

    fn allows(self, byte: u8) -> bool {
        match self {
            SfClass::Escapable => byte == b'"' || byte == b'\\',
            SfClass::Unescaped => is_unescaped(byte),
            SfClass::KeyFirst => byte.is_ascii_lowercase() || byte == b'*',
            SfClass::KeyRest => is_key_rest(byte),
            SfClass::TokenFirst => byte.is_ascii_alphabetic() || byte == b'*',
            SfClass::TokenRest => is_tchar(byte) || byte == b':' || byte == b'/',
            SfClass::Bit => byte == b'0' || byte == b'1',
            SfClass::Base64 => is_base64(byte),
            SfClass::Unencoded => matches!(byte, b' '..=b'~') && byte != b'%' && byte != b'"',
        }
    }
}

// Each letter of base64 is at its own place, and a comma, which is none, at every other place.
static BASE64: [u8; 256] = *b"\
    ,,,,,,,,,,,,,,,,,,,,,,,,,,,,,,,,\
    ,,,,,,,,,,,+,,,/0123456789,,,,,,\
    ,ABCDEFGHIJKLMNOPQRSTUVWXYZ,,,,,\
    ,abcdefghijklmnopqrstuvwxyz,,,,,\
    ,,,,,,,,,,,,,,,,,,,,,,,,,,,,,,,,\
    ,,,,,,,,,,,,,,,,,,,,,,,,,,,,,,,,\
    ,,,,,,,,,,,,,,,,,,,,,,,,,,,,,,,,\
    ,,,,,,,,,,,,,,,,,,,,,,,,,,,,,,,,";

// Each byte that a key may have after its first is at its own place, and a comma, which is none, at
// every other place.
static KEY_REST: [u8; 256] = *b"\
    ,,,,,,,,,,,,,,,,,,,,,,,,,,,,,,,,\
    ,,,,,,,,,,*,,-.,0123456789,,,,,,\
    ,,,,,,,,,,,,,,,,,,,,,,,,,,,,,,,_\
    ,abcdefghijklmnopqrstuvwxyz,,,,,\
    ,,,,,,,,,,,,,,,,,,,,,,,,,,,,,,,,\
    ,,,,,,,,,,,,,,,,,,,,,,,,,,,,,,,,\
    ,,,,,,,,,,,,,,,,,,,,,,,,,,,,,,,,\
    ,,,,,,,,,,,,,,,,,,,,,,,,,,,,,,,,";

// Each byte that a String has as it is is at its own place, and NUL, which is none, at every other
// place.
static UNESCAPED: [u8; 256] = *b"\
    \0\0\0\0\0\0\0\0\0\0\0\0\0\0\0\0\0\0\0\0\0\0\0\0\0\0\0\0\0\0\0\0\
    \x20!\0#$%&'()*+,-./0123456789:;<=>?\
    @ABCDEFGHIJKLMNOPQRSTUVWXYZ[\0]^_\
    `abcdefghijklmnopqrstuvwxyz{|}~\0\
    \0\0\0\0\0\0\0\0\0\0\0\0\0\0\0\0\0\0\0\0\0\0\0\0\0\0\0\0\0\0\0\0\
    \0\0\0\0\0\0\0\0\0\0\0\0\0\0\0\0\0\0\0\0\0\0\0\0\0\0\0\0\0\0\0\0\
    \0\0\0\0\0\0\0\0\0\0\0\0\0\0\0\0\0\0\0\0\0\0\0\0\0\0\0\0\0\0\0\0\
    \0\0\0\0\0\0\0\0\0\0\0\0\0\0\0\0\0\0\0\0\0\0\0\0\0\0\0\0\0\0\0\0";

fn is_base64(byte: u8) -> bool
    ensures { result ≡ is_base64 byte }
{
    BASE64[byte as usize] != b','
}

fn is_key_rest(byte: u8) -> bool
    ensures { result ≡ is_key_rest byte }
{
    KEY_REST[byte as usize] != b','
}

fn is_unescaped(byte: u8) -> bool
    ensures { result ≡ is_unescaped byte }
{
    UNESCAPED[byte as usize] != b'\0'
}
