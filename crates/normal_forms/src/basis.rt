//! What two records of one message have to have in common.

ghost use Rattle.std.specs.Prelude.{◌≡◌};
ghost use Rattle.normal_forms.specs.Agreement.{fixed_name};

use msg_head::Side;
use std::fmt;

/// A field whose lines stay, whatever is covered.
#[derive(Clone, Copy, Debug, PartialEq, Eq)]
pub enum FixedName {
    /// RFC 9110 section 7.2.
    Host,
    /// RFC 9110 section 8.6.
    ContentLength,
    /// RFC 9112 section 6.1.
    TransferEncoding,
    /// RFC 9421 section 4.2.
    Signature,
    /// RFC 9421 section 4.1.
    SignatureInput,
}

/// All of them.
pub(crate) const FIXED_NAMES: [&[u8]; 5] = [
    b"signature",
    b"signature-input",
    b"host",
    b"content-length",
    b"transfer-encoding",
];

impl FixedName {
    /// The name, in lower case.
    pub fn text(self) -> &'static [u8]
        ensures { result.now ≡ fixed_name self }
    {
        match self {
            FixedName::Host => b"host",
            FixedName::ContentLength => b"content-length",
            FixedName::TransferEncoding => b"transfer-encoding",
            FixedName::Signature => b"signature",
            FixedName::SignatureInput => b"signature-input",
        }
    }
}

/// What isn't explained: two messages that differ in it are no records of one message.
#[derive(Clone, Copy, Debug, PartialEq, Eq)]
pub enum Basis {
    /// The start line (RFC 9112 section 2.1).
    StartLine,
    /// The content, chunks taken off (RFC 9110 section 6.4).
    Content,
    /// The lines of the name on the side.
    Field { side: Side, name: FixedName },
}

/// The word that output has for it.
impl fmt::Display for FixedName {
    ghost use Rattle.std.specs.Prelude.{Some};
    ghost use Rattle.normal_forms.specs.Agreement.{fixed_name};

    ghost output = { λ name. Some (fixed_name name) };

    fn fmt<W: fmt::Write>(&self, f: &mut fmt::Formatter<W>) -> fmt::Result {
        f.write_str(match self {
            FixedName::Host => "host",
            FixedName::ContentLength => "content-length",
            FixedName::TransferEncoding => "transfer-encoding",
            FixedName::Signature => "signature",
            FixedName::SignatureInput => "signature-input",
        })
    }
}

/// The words that output has for it: the side as a script has it, and the name.
impl fmt::Display for Basis {
    ghost use Rattle.std.specs.Prelude.{Some};
    ghost use Rattle.normal_forms.specs.Words.{basis_text};

    ghost output = { λ basis. Some (basis_text basis) };

    fn fmt<W: fmt::Write>(&self, f: &mut fmt::Formatter<W>) -> fmt::Result {
        match self {
            Basis::StartLine => f.write_str("start-line"),
            Basis::Content => f.write_str("content"),
            Basis::Field {
                side: Side::Header,
                name,
            } => write!(f, "h {name}"),
            Basis::Field {
                side: Side::Trailer,
                name,
            } => write!(f, "t {name}"),
        }
    }
}
