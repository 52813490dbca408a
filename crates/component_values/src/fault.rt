//! Why components aren't prepared.

ghost use Rattle.std.specs.Prelude.{◌≡◌};
ghost use Rattle.component_values.specs.tools.Rows.{lack_fault_at};

use derived_values::{Lack, NoValue};
use sfv_text::Memory;
use std::error::Error;
use std::fmt;

/// Why components aren't prepared.
#[derive(Clone, Copy, Debug, PartialEq, Eq)]
pub enum ValueFault {
    /// Out of memory. It says nothing of the components.
    Memory,
    /// The component at the index, counted from 0, lacks a value so; those before it have theirs.
    Lacks(usize, Lack),
}

impl fmt::Display for ValueFault {
    ghost use Rattle.std.specs.Prelude.{Some};
    ghost use Rattle.component_values.specs.Words.{value_fault_text};

    ghost output = { λ fault. Some (value_fault_text fault) };

    fn fmt<W: fmt::Write>(&self, f: &mut fmt::Formatter<W>) -> fmt::Result {
        match self {
            ValueFault::Memory => f.write_str("out of memory"),
            ValueFault::Lacks(index, lack) => write!(f, "the component at index {index} is {lack}"),
        }
    }
}

impl Error for ValueFault {}

impl From<Memory> for ValueFault {
    ghost use Rattle.std.specs.Prelude.{◌≡◌};
    ghost use Rattle.component_values.specs.declared.fault.ValueFault.TheVariants.{Memory as OutOfMemory};

    ghost from_gives = { λ _ fault. fault ≡ OutOfMemory };

    fn from(_memory: Memory) -> ValueFault {
        ValueFault::Memory
    }
}

/// The fault of the component at the index.
pub(crate) fn lack_fault(index: usize, why: NoValue) -> ValueFault
    ensures { result ≡ lack_fault_at index why }
{
    match why {
        NoValue::Memory => ValueFault::Memory,
        NoValue::Lacks(lack) => ValueFault::Lacks(index, lack),
    }
}
