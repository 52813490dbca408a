//! Why a text isn't read, and why a reader inside it stopped.

ghost use Rattle.std.specs.Prelude.{◌≡◌};
ghost use Rattle.sfv_read.specs.declared.error.PartError.TheVariants.{Memory as NoMore, At};

use byte_grammar::Left;
use sfv_text::Memory;
use std::error::Error;
use std::fmt;

/// Why a text isn't read. An offset counts bytes; it is the length of the longest prefix of the
/// text that begins a text that is read, so a text that only lacks its end has its own length as
/// the offset.
#[derive(Clone, Copy, Debug, PartialEq, Eq)]
pub enum SfError {
    /// Out of memory. It says nothing of the text.
    Memory,
    /// No text that is read goes on so at this offset.
    Syntax(usize),
}

impl fmt::Display for SfError {
    ghost use Rattle.std.specs.Prelude.{Some};
    ghost use Rattle.sfv_read.specs.Fault.{error_text};

    ghost output = { λ e. Some (error_text e) };

    fn fmt<W: fmt::Write>(&self, f: &mut fmt::Formatter<W>) -> fmt::Result {
        match self {
            SfError::Memory => f.write_str("out of memory"),
            SfError::Syntax(offset) => write!(f, "not a structured field from byte {offset} on"),
        }
    }
}

impl Error for SfError {}

/// Why a reader inside a text stopped.
#[derive(Clone, Copy, PartialEq, Eq)]
pub enum PartError {
    /// Out of memory.
    Memory,
    /// So many bytes were left.
    At(usize),
}

impl From<Left> for PartError {
    ghost from_gives = { λ left e. e ≡ At left.0 };

    fn from(left: Left) -> PartError {
        PartError::At(left.0)
    }
}

impl From<Memory> for PartError {
    ghost from_gives = { λ _ e. e ≡ NoMore };

    fn from(_memory: Memory) -> PartError {
        PartError::Memory
    }
}
