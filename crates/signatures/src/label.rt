//! What is read of a label, and why it isn't.

use crate::place::Place;
use crate::rule::Rule;
use component_ids::SigParams;
use sfv_text::{Memory, Sequence, Text};
use std::error::Error;
use std::fmt;

/// The labels of a message, in order.
pub type Labels = Sequence<Text>;

/// The signature of a label.
#[derive(Drop)]
pub struct LabelRead {
    /// Its covered components and parameters (RFC 9421 section 4.1).
    pub params: SigParams,
    /// Its bytes, the output of the algorithm (RFC 9421 section 4.2).
    pub tag: Text,
}

/// Why a label isn't read.
#[derive(Debug, Drop)]
pub enum LabelFault {
    /// Out of memory. It says nothing of the label.
    Memory,
    /// The first of rules 1 to 12 that fails, and where.
    Rule(Rule, Place),
}

impl fmt::Display for LabelFault {
    ghost use Rattle.std.specs.Prelude.{Some};
    ghost use Rattle.signatures.specs.Words.{label_fault_text};

    ghost output = { λ fault. Some (label_fault_text fault) };

    fn fmt<W: fmt::Write>(&self, f: &mut fmt::Formatter<W>) -> fmt::Result {
        match self {
            LabelFault::Memory => f.write_str("out of memory"),
            LabelFault::Rule(rule, place) => {
                let number = rule.number();
                write!(f, "rule {number} {rule}{place}")
            }
        }
    }
}

impl Error for LabelFault {}

impl From<Memory> for LabelFault {
    ghost use Rattle.std.specs.Prelude.{◌≡◌};
    ghost use Rattle.signatures.specs.declared.label.LabelFault.TheVariants.{Memory as OutOfMemory};

    ghost from_gives = { λ _ fault. fault ≡ OutOfMemory };

    fn from(_memory: Memory) -> LabelFault {
        LabelFault::Memory
    }
}
