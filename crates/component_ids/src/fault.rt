//! Why an Inner List is no signature parameters.

ghost use Rattle.std.specs.Prelude.{◌≡◌};
ghost use Rattle.component_ids.specs.Reasons.{word_of};

use sfv_text::{self, Text};
use std::error::Error;
use std::fmt;

/// Why an item is no component identifier (RFC 9421 sections 2 to 2.4), the least first.
#[derive(Clone, Copy, Debug, PartialEq, Eq)]
pub enum BadReason {
    /// The bare item is no String.
    NotAString,
    /// No component has the name.
    Name,
    /// A parameter doesn't go with the name.
    ParameterUnknown,
    /// A parameter's value is of a wrong type.
    ParameterType,
    /// `bs` comes with `sf` or `key`.
    ParametersClash,
    /// `@query-param` has no `name`.
    NameMissing,
}

impl BadReason {
    /// The word that stands for the reason in output.
    pub fn word(self) -> &'static str
        ensures { result.now ≡ word_of self }
    {
        match self {
            BadReason::NotAString => "not-a-string",
            BadReason::Name => "name",
            BadReason::ParameterUnknown => "parameter-unknown",
            BadReason::ParameterType => "parameter-type",
            BadReason::ParametersClash => "parameters-clash",
            BadReason::NameMissing => "name-missing",
        }
    }
}

impl fmt::Display for BadReason {
    ghost use Rattle.std.specs.Prelude.{Some};
    ghost use Rattle.component_ids.specs.Reasons.{word_of};

    ghost output = { λ reason. Some (word_of reason) };

    fn fmt<W: fmt::Write>(&self, f: &mut fmt::Formatter<W>) -> fmt::Result {
        f.write_str(self.word())
    }
}

impl Error for BadReason {}

/// Why an Inner List is no signature parameters, in the order in which they are judged. An index
/// counts the items from 0.
#[derive(Debug, Drop)]
pub enum IdFault {
    /// Out of memory, which is judged nowhere: it may come in place of any other answer.
    Memory,
    /// There are more than `MAX_COMPONENTS` items.
    TooMany,
    /// The item at the index is no component identifier.
    BadComponent(usize, BadReason),
    /// The identifier at the index is the same as an earlier one.
    Repeated(usize),
    /// The parameter of the key has a value of a wrong type.
    BadParameter(Text),
}

impl fmt::Display for IdFault {
    ghost use Rattle.std.specs.Prelude.{Some};
    ghost use Rattle.component_ids.specs.Causes.{id_fault_text};

    ghost output = { λ fault. Some (id_fault_text fault) };

    fn fmt<W: fmt::Write>(&self, f: &mut fmt::Formatter<W>) -> fmt::Result {
        match self {
            IdFault::Memory => f.write_str("out of memory"),
            IdFault::TooMany => f.write_str("components-many"),
            IdFault::BadComponent(index, reason) => write!(f, "component-bad {index} {reason}"),
            IdFault::Repeated(index) => write!(f, "component-repeated {index}"),
            IdFault::BadParameter(key) => write!(f, "parameter-bad {key}"),
        }
    }
}

impl Error for IdFault {}

impl From<sfv_text::Memory> for IdFault {
    ghost use Rattle.std.specs.Prelude.{◌≡◌};
    ghost use Rattle.component_ids.specs.declared.fault.IdFault.TheVariants.{Memory};

    ghost from_gives = { λ _ fault. fault ≡ Memory };

    fn from(_memory: sfv_text::Memory) -> IdFault {
        IdFault::Memory
    }
}
