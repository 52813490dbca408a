//! Why messages aren't signed, and wishes aren't met.

ghost use Rattle.std.specs.Prelude.{◌≡◌};
ghost use Rattle.signing.specs.Words.{limit_word};

use component_ids::IdFault;
use component_values::Lack;
use msg_head::{MAX_HEAD_BYTES, MAX_HEAD_LINES};
use sfv_text::Memory;
use std::error::Error;
use std::fmt;

/// Why a message isn't signed, in the order in which it is judged.
#[derive(Clone, Copy, Debug, PartialEq, Eq)]
pub enum SignFault {
    /// Out of memory. It says nothing of the message.
    Memory,
    /// The header has `Signature-Input`, and it is no Dictionary with a member.
    InputMalformed,
    /// The header has `Signature`, and it is no Dictionary with a member.
    SignatureMalformed,
    /// One of the two Dictionaries has a member of the label.
    LabelThere,
    /// The covered component at the index, counted from 0, is one of the two fields whole, or its
    /// member of the label.
    SelfCover(usize),
    /// The signed message would pass this limit: `MAX_HEAD_BYTES`, `MAX_HEAD_LINES` or
    /// `MAX_MESSAGE_BYTES`.
    TooLong(usize),
    /// The covered component at the index, counted from 0, lacks a value so; those before it have
    /// theirs.
    Lacks(usize, Lack),
}

/// How output calls the limit.
fn limit_word(limit: usize) -> &'static str
    ensures { result.now ≡ limit_word limit }
{
    match limit {
        MAX_HEAD_BYTES => "signed-head",
        MAX_HEAD_LINES => "signed-lines",
        _ => "signed-bytes",
    }
}

impl fmt::Display for SignFault {
    ghost use Rattle.std.specs.Prelude.{Some};
    ghost use Rattle.signing.specs.Words.{sign_fault_text};

    ghost output = { λ fault. Some (sign_fault_text fault) };

    fn fmt<W: fmt::Write>(&self, f: &mut fmt::Formatter<W>) -> fmt::Result {
        match self {
            SignFault::Memory => f.write_str("out of memory"),
            SignFault::InputMalformed => f.write_str("input-malformed"),
            SignFault::SignatureMalformed => f.write_str("signature-malformed"),
            SignFault::LabelThere => f.write_str("label-there"),
            SignFault::SelfCover(index) => write!(f, "self-cover {index}"),
            SignFault::TooLong(limit) => {
                let word = limit_word(*limit);
                write!(f, "{word} {limit}")
            }
            SignFault::Lacks(index, lack) => write!(f, "{lack} {index}"),
        }
    }
}

impl Error for SignFault {}

impl From<Memory> for SignFault {
    ghost use Rattle.std.specs.Prelude.{◌≡◌};
    ghost use Rattle.signing.specs.declared.fault.SignFault.TheVariants.{Memory as OutOfMemory};

    ghost from_gives = { λ _ fault. fault ≡ OutOfMemory };

    fn from(_memory: Memory) -> SignFault {
        SignFault::Memory
    }
}

/// Why wishes aren't met, in the order in which it is judged: wish by wish, and of one wish in this
/// order. An index is that of the wish in the field, counted from 0.
#[derive(Debug, Drop)]
pub enum WantFault {
    /// Out of memory. It says nothing of the wishes.
    Memory,
    /// No header line is named `Accept-Signature`, or the Dictionary is empty.
    Absent,
    /// The field is no Dictionary (RFC 9421 section 5.1).
    Malformed,
    /// The member is no Inner List.
    NotInnerList(usize),
    /// Its items aren't component identifiers, no two of them the same.
    Ids(usize, IdFault),
    /// A parameter of RFC 9421 section 2.3 is of a wrong type, or `expires` is wished and isn't
    /// configured.
    Parameter(usize),
    /// `alg` is a registered algorithm that isn't supported (RFC 9421 section 6.2.2).
    AlgRefused(usize),
    /// `alg` is no registered algorithm.
    AlgUnknown(usize),
    /// The configuration has no key of the `keyid`.
    KeyUnknown(usize),
}

impl fmt::Display for WantFault {
    ghost use Rattle.std.specs.Prelude.{Some};
    ghost use Rattle.signing.specs.Words.{want_fault_text};

    ghost output = { λ fault. Some (want_fault_text fault) };

    fn fmt<W: fmt::Write>(&self, f: &mut fmt::Formatter<W>) -> fmt::Result {
        match self {
            WantFault::Memory => f.write_str("out of memory"),
            WantFault::Absent => f.write_str("wanted-absent"),
            WantFault::Malformed => f.write_str("wanted-malformed"),
            WantFault::NotInnerList(index) => write!(f, "wanted-list {index}"),
            WantFault::Ids(index, _) => write!(f, "wanted-ids {index}"),
            WantFault::Parameter(index) => write!(f, "wanted-parameter {index}"),
            WantFault::AlgRefused(index) => write!(f, "wanted-alg-refused {index}"),
            WantFault::AlgUnknown(index) => write!(f, "wanted-alg-unknown {index}"),
            WantFault::KeyUnknown(index) => write!(f, "wanted-key {index}"),
        }
    }
}

impl Error for WantFault {}

impl From<Memory> for WantFault {
    ghost use Rattle.std.specs.Prelude.{◌≡◌};
    ghost use Rattle.signing.specs.declared.fault.WantFault.TheVariants.{Memory as OutOfMemory};

    ghost from_gives = { λ _ fault. fault ≡ OutOfMemory };

    fn from(_memory: Memory) -> WantFault {
        WantFault::Memory
    }
}
