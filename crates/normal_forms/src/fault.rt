//! Why there is no normal form, and why nothing is explained.

use crate::basis::Basis;
use sfv_text::Memory;
use std::error::Error;
use std::fmt;

/// Why there is no normal form.
#[derive(Clone, Copy, Debug, PartialEq, Eq)]
pub enum NormalFault {
    /// Out of memory. It says nothing of the message.
    Memory,
    /// The component with this index covers what a field reads as (RFC 9421 sections 2.1.1 and
    /// 2.1.2), and no steps are listed for it.
    NotPlain(usize),
}

impl From<Memory> for NormalFault {
    ghost use Rattle.std.specs.Prelude.{◌≡◌};
    ghost use Rattle.normal_forms.specs.declared.fault.NormalFault.TheVariants.{Memory as OutOfMemory};

    ghost from_gives = { λ _ fault. fault ≡ OutOfMemory };

    fn from(_memory: Memory) -> NormalFault {
        NormalFault::Memory
    }
}

/// Why nothing is explained. Where several hold, the first in this order is answered.
#[derive(Clone, Copy, Debug, PartialEq, Eq)]
pub enum ExplainFault {
    /// Out of memory. It says nothing of the messages.
    Memory,
    /// Some rule of reading fails for the label in the first message.
    Unread,
    /// The component with this index covers what a field reads as (RFC 9421 sections 2.1.1 and
    /// 2.1.2), and no steps are listed for it.
    NotPlain(usize),
    /// The messages are no records of one message: they differ in this.
    OtherBasis(Basis),
}

impl From<Memory> for ExplainFault {
    ghost use Rattle.std.specs.Prelude.{◌≡◌};
    ghost use Rattle.normal_forms.specs.declared.fault.ExplainFault.TheVariants.{Memory as OutOfMemory};

    ghost from_gives = { λ _ fault. fault ≡ OutOfMemory };

    fn from(_memory: Memory) -> ExplainFault {
        ExplainFault::Memory
    }
}

/// The word that output has for it, with the index of the component, or what differs.
impl fmt::Display for ExplainFault {
    ghost use Rattle.std.specs.Prelude.{Some};
    ghost use Rattle.normal_forms.specs.Words.{explain_fault_text};

    ghost output = { λ fault. Some (explain_fault_text fault) };

    fn fmt<W: fmt::Write>(&self, f: &mut fmt::Formatter<W>) -> fmt::Result {
        match self {
            ExplainFault::Memory => f.write_str("out of memory"),
            ExplainFault::Unread => f.write_str("label-unread"),
            ExplainFault::NotPlain(index) => write!(f, "not-plain {index}"),
            ExplainFault::OtherBasis(basis) => write!(f, "basis {basis}"),
        }
    }
}

impl Error for ExplainFault {}

/// The word that output would have for it, with the index of the component.
impl fmt::Display for NormalFault {
    ghost use Rattle.std.specs.Prelude.{Some};
    ghost use Rattle.normal_forms.specs.Words.{normal_fault_text};

    ghost output = { λ fault. Some (normal_fault_text fault) };

    fn fmt<W: fmt::Write>(&self, f: &mut fmt::Formatter<W>) -> fmt::Result {
        match self {
            NormalFault::Memory => f.write_str("out of memory"),
            NormalFault::NotPlain(index) => write!(f, "not-plain {index}"),
        }
    }
}

impl Error for NormalFault {}
