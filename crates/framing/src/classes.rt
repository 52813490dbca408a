//! The classes of the bytes of a chunk line.

use byte_grammar::ByteClass;

/// HEXDIG (RFC 5234 appendix B.1), whose letters match in either case.
#[derive(Clone, Copy)]
pub(crate) struct HexDigit;

/// A byte with which an extension begins.
#[derive(Clone, Copy)]
pub(crate) struct ExtensionStart;

impl ByteClass for HexDigit {
    ghost use Rattle.std.specs.Char.{is_ascii_hexdigit};

    ghost members = { λ _ c. is_ascii_hexdigit c };

    fn allows(self, byte: u8) -> bool {
        byte.is_ascii_hexdigit()
    }
}

impl ByteClass for ExtensionStart {
    ghost use Rattle.framing.specs.Chunks.{begins_extension};

    ghost members = { λ _ c. begins_extension c };

    fn allows(self, byte: u8) -> bool {
        matches!(byte, b';' | b' ' | b'\t')
    }
}
