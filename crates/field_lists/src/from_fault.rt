//! Why a message is turned into no list of fields.

use std::error::Error;
use std::fmt;

/// Why a message is turned into no list, in the order in which it is judged.
#[derive(Clone, Copy, Debug, PartialEq, Eq)]
pub enum FromFault {
    /// Out of memory.
    Memory,
    /// It is a request whose target is neither in origin form nor in absolute form (RFC 9112
    /// section 3.2).
    NoForm,
    /// It is a request whose `@authority` lacks a value (RFC 9421 section 2.2.3).
    NoAuthority,
}

/// The word that output has for it.
impl fmt::Display for FromFault {
    ghost use Rattle.std.specs.Prelude.{Some};
    ghost use Rattle.field_lists.specs.Words.{from_fault_text};

    ghost output = { λ fault. Some (from_fault_text fault) };

    fn fmt<W: fmt::Write>(&self, f: &mut fmt::Formatter<W>) -> fmt::Result {
        match self {
            FromFault::Memory => f.write_str("out of memory"),
            FromFault::NoForm => f.write_str("fields-form"),
            FromFault::NoAuthority => f.write_str("fields-authority"),
        }
    }
}

impl Error for FromFault {}

impl From<byte_grammar::Memory> for FromFault {
    ghost use Rattle.std.specs.Prelude.{◌≡◌};
    ghost use Rattle.field_lists.specs.declared.from_fault.FromFault.TheVariants as fault;

    ghost from_gives = { λ _ f. f ≡ fault.Memory };

    fn from(_memory: byte_grammar::Memory) -> FromFault {
        FromFault::Memory
    }
}
