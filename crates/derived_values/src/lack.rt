//! How a component lacks a value.

ghost use Rattle.std.specs.Prelude.{◌≡◌};
ghost use Rattle.derived_values.specs.Words.{lack_word};

use sfv_read::SfError;
use sfv_text::Memory;
use std::error::Error;
use std::fmt;

/// How a component lacks a value.
#[derive(Clone, Copy, Debug, PartialEq, Eq)]
pub enum Lack {
    /// It isn't there: no field line has the name, as `Host`, no member the key, no query parameter
    /// the name, or no related request is known.
    Absent,
    /// There are several, where just one may be.
    Ambiguous,
    /// A message of this kind, or with this target, has no such component.
    Underivable,
    /// The field isn't known as structured, or its text isn't one of the kind (RFC 9421 sections
    /// 2.1.1 and 2.1.2).
    Unreadable,
    /// The value has a byte of 0x80 or more, and no other form of it is asked for (RFC 9421 section
    /// 2.1: only `bs` has such values).
    NotAscii,
}

impl Lack {
    /// The word that stands for it in output.
    pub fn word(self) -> &'static str
        ensures { result.now ≡ lack_word self }
    {
        match self {
            Lack::Absent => "absent",
            Lack::Ambiguous => "ambiguous",
            Lack::Underivable => "underivable",
            Lack::Unreadable => "unreadable",
            Lack::NotAscii => "not-ascii",
        }
    }
}

impl fmt::Display for Lack {
    ghost use Rattle.std.specs.Prelude.{Some};
    ghost use Rattle.derived_values.specs.Words.{lack_word};

    ghost output = { λ lack. Some (lack_word lack) };

    fn fmt<W: fmt::Write>(&self, f: &mut fmt::Formatter<W>) -> fmt::Result {
        f.write_str(self.word())
    }
}

impl Error for Lack {}

/// Why a component has no value here.
#[derive(Clone, Copy)]
pub enum NoValue {
    /// Out of memory.
    Memory,
    /// It lacks one.
    Lacks(Lack),
}

impl From<Memory> for NoValue {
    ghost use Rattle.std.specs.Prelude.{◌≡◌};
    ghost use Rattle.derived_values.specs.declared.lack.NoValue.TheVariants.{Memory as OutOfMemory};

    ghost from_gives = { λ _ why. why ≡ OutOfMemory };

    fn from(_memory: Memory) -> NoValue {
        NoValue::Memory
    }
}

/// A text that isn't read.
impl From<SfError> for NoValue {
    ghost use Rattle.std.specs.Prelude.{◌≡◌};
    ghost use Rattle.derived_values.specs.Answers.{no_value_of};

    ghost from_gives = { λ error why. why ≡ no_value_of error };

    fn from(error: SfError) -> NoValue {
        match error {
            SfError::Memory => NoValue::Memory,
            SfError::Syntax(_) => NoValue::Lacks(Lack::Unreadable),
        }
    }
}

impl From<Lack> for NoValue {
    ghost use Rattle.std.specs.Prelude.{◌≡◌};
    ghost use Rattle.derived_values.specs.declared.lack.NoValue.TheVariants.{Lacks};

    ghost from_gives = { λ lack why. why ≡ Lacks lack };

    fn from(lack: Lack) -> NoValue {
        NoValue::Lacks(lack)
    }
}
