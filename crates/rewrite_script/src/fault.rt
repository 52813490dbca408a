//! Why a text is no script.

ghost use Rattle.std.specs.Prelude.{◌≡◌};
ghost use Rattle.rewrite_script.specs.declared.fault.ScriptFault.TheVariants.{Memory as OutOfMemory};
ghost use Rattle.rewrite_script.specs.declared.fault.LineFault.TheVariants.{Memory as NoMemory};

use crate::limits::MAX_SCRIPT_LINES;
use sfv_text::Memory;
use std::error::Error;
use std::fmt;

/// Why a text is no script. Where several hold, the first in this order is answered.
#[derive(Clone, Copy, Debug, PartialEq, Eq)]
pub enum ScriptFault {
    /// Out of memory. It says nothing of the text.
    Memory,
    /// The text has more than `MAX_SCRIPT_LINES` lines, a last one without LF counted.
    TooMany,
    /// The line at the index, counted from 0, is that of no rewriting, or isn't ended by LF. Those
    /// before it are.
    BadLine(usize),
}

/// The word that output has for it, with the limit that is passed, or where it is.
impl fmt::Display for ScriptFault {
    ghost use Rattle.std.specs.Prelude.{Some};
    ghost use Rattle.rewrite_script.specs.Words.{script_fault_text};

    ghost output = { λ fault. Some (script_fault_text fault) };

    fn fmt<W: fmt::Write>(&self, f: &mut fmt::Formatter<W>) -> fmt::Result {
        match self {
            ScriptFault::Memory => f.write_str("out of memory"),
            ScriptFault::TooMany => write!(f, "steps {MAX_SCRIPT_LINES}"),
            ScriptFault::BadLine(index) => write!(f, "script-line {index}"),
        }
    }
}

impl Error for ScriptFault {}

impl From<Memory> for ScriptFault {
    ghost from_gives = { λ _ fault. fault ≡ OutOfMemory };

    fn from(_memory: Memory) -> ScriptFault {
        ScriptFault::Memory
    }
}

/// Why a line isn't read.
#[derive(Clone, Copy)]
pub enum LineFault {
    /// Out of memory.
    Memory,
    /// It is that of no rewriting.
    NotSpelled,
}

impl From<Memory> for LineFault {
    ghost from_gives = { λ _ fault. fault ≡ NoMemory };

    fn from(_memory: Memory) -> LineFault {
        LineFault::Memory
    }
}
