//! Classes of bytes, and their tests.

ghost use Rattle.std.specs.Prelude.{◌≡◌, ℕ, Bool};
ghost use Rattle.byte_grammar.specs.Classes.{is_tchar, is_blank};

/// A class of bytes, as the letters or the digits are.
pub trait ByteClass: Copy {
    // The bytes of the class.
    ghost members: { Self → ℕ → Bool };

    /// Whether the byte is of the class.
    fn allows(self, byte: u8) -> bool
        ensures { result ≡ members self byte };
}

/// The class of one byte.
#[derive(Clone, Copy, PartialEq, Eq)]
pub struct Byte(pub u8);

impl ByteClass for Byte {
    ghost use Rattle.std.specs.Prelude.{◌==◌};

    ghost members = { λ b c. c == b.0 };

    fn allows(self, byte: u8) -> bool {
        byte == self.0
    }
}

/// The classes that several formats share.
#[derive(Clone, Copy, PartialEq, Eq)]
pub enum Class {
    /// DIGIT: RFC 5234 appendix B.1.
    Digit,
    /// ALPHA: RFC 5234 appendix B.1.
    Alpha,
    /// tchar: RFC 9110 section 5.6.2.
    Tchar,
    /// SP or HTAB, of which OWS is made: RFC 9110 section 5.6.3.
    Blank,
    /// VCHAR, any visible byte of ASCII: RFC 5234 appendix B.1.
    Visible,
    /// Any byte but NUL, CR and LF: RFC 9110 section 5.5.
    LineByte,
}

impl ByteClass for Class {
    ghost use Rattle.byte_grammar.specs.Classes.{members};

    ghost members = { members };

    fn allows(self, byte: u8) -> bool {
        match self {
            Class::Digit => byte.is_ascii_digit(),
            Class::Alpha => byte.is_ascii_alphabetic(),
            Class::Tchar => is_tchar(byte),
            Class::Blank => is_blank(byte),
            Class::Visible => byte.is_ascii_graphic(),
            Class::LineByte => !matches!(byte, b'\0' | b'\r' | b'\n'),
        }
    }
}

// Each tchar is at its own place, and a comma, which is none, at every other place.
static TCHARS: [u8; 256] = *b"\
    ,,,,,,,,,,,,,,,,,,,,,,,,,,,,,,,,\
    ,!,#$%&',,*+,-.,0123456789,,,,,,\
    ,ABCDEFGHIJKLMNOPQRSTUVWXYZ,,,^_\
    `abcdefghijklmnopqrstuvwxyz,|,~,\
    ,,,,,,,,,,,,,,,,,,,,,,,,,,,,,,,,\
    ,,,,,,,,,,,,,,,,,,,,,,,,,,,,,,,,\
    ,,,,,,,,,,,,,,,,,,,,,,,,,,,,,,,,\
    ,,,,,,,,,,,,,,,,,,,,,,,,,,,,,,,,";

/// Whether the byte is a tchar (RFC 9110 section 5.6.2).
pub fn is_tchar(byte: u8) -> bool
    ensures { result ≡ is_tchar byte }
{
    TCHARS[byte as usize] != b','
}

/// Whether the byte is SP or HTAB (RFC 9110 section 5.6.3).
pub fn is_blank(byte: u8) -> bool
    ensures { result ≡ is_blank byte }
{
    byte == b' ' || byte == b'\t'
}
