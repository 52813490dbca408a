//! Why a step gives no message.

use sfv_text::Memory;
use std::error::Error;
use std::fmt;

/// Why a step gives no message.
#[derive(Clone, Copy, Debug, PartialEq, Eq)]
pub enum ApplyFault {
    /// Out of memory. It says nothing of the step.
    Memory,
    /// What the step asks for isn't in the message, or its result is no message within the limits
    /// with the same content.
    NotApplicable,
}

/// The word that output has for it.
impl fmt::Display for ApplyFault {
    ghost use Rattle.std.specs.Prelude.{Some};
    ghost use Rattle.line_rewrites.specs.Words.{apply_fault_text};

    ghost output = { λ fault. Some (apply_fault_text fault) };

    fn fmt<W: fmt::Write>(&self, f: &mut fmt::Formatter<W>) -> fmt::Result {
        f.write_str(match self {
            ApplyFault::Memory => "out of memory",
            ApplyFault::NotApplicable => "not-applicable",
        })
    }
}

impl Error for ApplyFault {}

impl From<Memory> for ApplyFault {
    ghost use Rattle.std.specs.Prelude.{◌≡◌};
    ghost use Rattle.line_rewrites.specs.declared.fault.ApplyFault.TheVariants.{Memory as OutOfMemory};

    ghost from_gives = { λ _ fault. fault ≡ OutOfMemory };

    fn from(_memory: Memory) -> ApplyFault {
        ApplyFault::Memory
    }
}
