//! The classes of bytes of URIs.

ghost use Rattle.std.specs.Prelude.{◌≡◌};
ghost use Rattle.derived_values.specs.UriBytes.{members, is_unreserved_or_delim};

use byte_grammar::ByteClass;

/// The classes of bytes of which the parts of a URI are made (RFC 3986 section 3).
#[derive(Clone, Copy)]
pub(crate) enum UriByte {
    /// What a scheme has after its first letter.
    Scheme,
    /// What an authority has before a path, a query or a fragment.
    Authority,
    /// What a path has before a query or a fragment.
    Path,
    /// What a query has before a fragment.
    Query,
    /// What a host has that is in no brackets.
    Host,
    /// What a host has within its brackets.
    Literal,
}

// Whether the byte is of `unreserved` or of `sub-delims` (RFC 3986 section 2).
fn is_unreserved_or_delim(byte: u8) -> bool
    ensures { result ≡ is_unreserved_or_delim byte }
{
    byte.is_ascii_alphanumeric()
        || matches!(
            byte,
            b'-' | b'.'
                | b'_'
                | b'~'
                | b'!'
                | b'$'
                | b'&'
                | b'\''
                | b'('
                | b')'
                | b'*'
                | b'+'
                | b','
                | b';'
                | b'='
        )
}

impl ByteClass for UriByte {
    ghost members = { members };

    fn allows(self, byte: u8) -> bool {
        match self {
            UriByte::Scheme => {
                byte.is_ascii_alphanumeric() || matches!(byte, b'+' | b'-' | b'.')
            }
            UriByte::Authority => !matches!(byte, b'/' | b'?' | b'#'),
            UriByte::Path => !matches!(byte, b'?' | b'#'),
            UriByte::Query => byte != b'#',
            UriByte::Host => is_unreserved_or_delim(byte) || byte == b'%',
            UriByte::Literal => is_unreserved_or_delim(byte) || byte == b':',
        }
    }
}
