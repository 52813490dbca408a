//! Why a walk doesn't come to its end.

use sfv_text::Memory;
use std::error::Error;
use std::fmt;

/// Why a walk doesn't come to its end. A step has its index in the list.
#[derive(Clone, Copy, Debug, PartialEq, Eq)]
pub enum WalkFault {
    /// Out of memory. It says nothing of the steps.
    Memory,
    /// The watcher couldn't judge the step on the message that it met.
    Unjudged(usize),
    /// The step isn't applicable to the message that it met.
    NotApplicable(usize),
    /// The step is applicable, but the watcher doesn't permit it.
    NotPermitted(usize),
}

/// The word that output has for it, with the index of the step.
impl fmt::Display for WalkFault {
    ghost use Rattle.std.specs.Prelude.{Some};
    ghost use Rattle.rewrites.specs.Words.{walk_fault_text};

    ghost output = { λ fault. Some (walk_fault_text fault) };

    fn fmt<W: fmt::Write>(&self, f: &mut fmt::Formatter<W>) -> fmt::Result {
        match self {
            WalkFault::Memory => f.write_str("out of memory"),
            WalkFault::Unjudged(index) => write!(f, "unjudged {index}"),
            WalkFault::NotApplicable(index) => write!(f, "not-applicable {index}"),
            WalkFault::NotPermitted(index) => write!(f, "not-permitted {index}"),
        }
    }
}

impl Error for WalkFault {}

impl From<Memory> for WalkFault {
    ghost use Rattle.std.specs.Prelude.{◌≡◌};
    ghost use Rattle.rewrites.specs.declared.fault.WalkFault.TheVariants.{Memory as OutOfMemory};

    ghost from_gives = { λ _ fault. fault ≡ OutOfMemory };

    fn from(_memory: Memory) -> WalkFault {
        WalkFault::Memory
    }
}
