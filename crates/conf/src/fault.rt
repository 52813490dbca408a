//! Why a text is no configuration.

ghost use Rattle.std.specs.Prelude.{◌≡◌, option_copied};
ghost use Rattle.conf.specs.Refusals.{fault_number, fault_path};

use sfv_text::{self, Text};
use std::error::Error;
use std::fmt;

/// Why a text is no configuration, in the order in which they are judged.
///
/// A path is that of a key, as `sign.label`; of the entries of `keys` and `types` it is the table's
/// name, and of an unknown key the name of the table that has it, `top` for the document.
#[derive(Debug, Drop)]
pub enum ConfFault {
    /// Out of memory, which is judged nowhere: it may come in place of any other answer.
    Memory,
    /// The text isn't UTF-8, or no TOML document.
    NotToml,
    /// A table has a key that isn't known.
    UnknownKey(Text),
    /// A value is of a wrong type.
    WrongType(Text),
    /// A value of the right type isn't allowed.
    OutOfRange(Text),
    /// The text of a key isn't padded base64 of 1 to `MAX_KEY_BYTES` bytes.
    BadKeyText(Text),
    /// A text is no Inner List of covered components without parameters of its own.
    BadComponents(Text),
    /// A text is no line of a script.
    BadScript(Text),
    /// A table lacks a key that it has to have.
    Missing(Text),
}

impl ConfFault {
    /// The number of the fault in output.
    pub fn number(&self) -> u8
        ensures { result ≡ fault_number self.now }
    {
        match self {
            ConfFault::Memory => 1,
            ConfFault::NotToml => 2,
            ConfFault::UnknownKey(_) => 3,
            ConfFault::WrongType(_) => 4,
            ConfFault::OutOfRange(_) => 5,
            ConfFault::BadKeyText(_) => 6,
            ConfFault::BadComponents(_) => 7,
            ConfFault::BadScript(_) => 8,
            ConfFault::Missing(_) => 9,
        }
    }

    /// The path of what is refused, where the fault has one.
    pub fn path(&self) -> Option<&[u8]>
        ensures { option_copied result ≡ fault_path self.now }
    {
        match self {
            ConfFault::Memory | ConfFault::NotToml => None,
            ConfFault::UnknownKey(path)
            | ConfFault::WrongType(path)
            | ConfFault::OutOfRange(path)
            | ConfFault::BadKeyText(path)
            | ConfFault::BadComponents(path)
            | ConfFault::BadScript(path)
            | ConfFault::Missing(path) => Some(path.bytes()),
        }
    }
}

impl fmt::Display for ConfFault {
    ghost use Rattle.std.specs.Prelude.{Some};
    ghost use Rattle.conf.specs.Refusals.{conf_fault_text};

    ghost output = { λ fault. Some (conf_fault_text fault) };

    fn fmt<W: fmt::Write>(&self, f: &mut fmt::Formatter<W>) -> fmt::Result {
        let number = self.number();
        match self {
            ConfFault::Memory => f.write_str("out of memory"),
            ConfFault::NotToml => write!(f, "{number}"),
            ConfFault::UnknownKey(path)
            | ConfFault::WrongType(path)
            | ConfFault::OutOfRange(path)
            | ConfFault::BadKeyText(path)
            | ConfFault::BadComponents(path)
            | ConfFault::BadScript(path)
            | ConfFault::Missing(path) => write!(f, "{number} {path}"),
        }
    }
}

impl Error for ConfFault {}

impl From<sfv_text::Memory> for ConfFault {
    ghost use Rattle.std.specs.Prelude.{◌≡◌};
    ghost use Rattle.conf.specs.declared.fault.ConfFault.TheVariants.{Memory};

    ghost from_gives = { λ _ fault. fault ≡ Memory };

    fn from(_memory: sfv_text::Memory) -> ConfFault {
        ConfFault::Memory
    }
}
