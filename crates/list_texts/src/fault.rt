//! Why a text is no list of fields.

use std::error::Error;
use std::fmt;

/// Why a text is no list of fields. The first that reading from the left meets is answered.
#[derive(Clone, Copy, Debug, PartialEq, Eq)]
pub enum FieldsFault {
    /// Out of memory.
    Memory,
    /// The offset is the first at which the bytes up to and with it begin no list, or that of the
    /// end where only more bytes are missing. Limits are left aside.
    Syntax(u64),
    /// The line at this offset says that a name or a value has more than `MAX_FIELD_BYTES` bytes,
    /// or the content more than `framing::MAX_CONTENT_BYTES`.
    TooLong(u64),
}

/// The word that output has for it, and where it is.
impl fmt::Display for FieldsFault {
    ghost use Rattle.std.specs.Prelude.{Some};
    ghost use Rattle.list_texts.specs.Words.{fields_fault_text};

    ghost output = { λ fault. Some (fields_fault_text fault) };

    fn fmt<W: fmt::Write>(&self, f: &mut fmt::Formatter<W>) -> fmt::Result {
        match self {
            FieldsFault::Memory => f.write_str("out of memory"),
            FieldsFault::Syntax(offset) => write!(f, "fields {offset}"),
            FieldsFault::TooLong(offset) => write!(f, "fields-long {offset}"),
        }
    }
}

impl Error for FieldsFault {}
