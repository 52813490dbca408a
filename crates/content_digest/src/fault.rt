//! Why digests aren't those of the content.

use crate::algorithm::Algorithm;
use sfv_read::SfError;
use sfv_text::{Memory, Text};
use std::error::Error;
use std::fmt;

/// Why a field's digests aren't accepted. Where several hold, the first in this order is answered.
#[derive(Debug, Drop)]
pub enum DigestFault {
    /// Out of memory. It says nothing of the digests.
    Memory,
    /// The field's value is no Dictionary, or its member of a known algorithm is no Byte Sequence
    /// (RFC 9530 section 2).
    Malformed,
    /// No member is of a known algorithm.
    NoneKnown,
    /// A member's bytes aren't the digest of the content, and the members of known algorithms
    /// before it agree with the content.
    Mismatch {
        /// The member's algorithm.
        algorithm: Algorithm,
        /// The member's bytes.
        kept: Text,
        /// The digest of the content.
        computed: Text,
    },
}

/// The word that output has for it.
impl fmt::Display for DigestFault {
    ghost use Rattle.std.specs.Prelude.{Some};
    ghost use Rattle.content_digest.specs.Faults.{fault_text};

    ghost output = { λ fault. Some (fault_text fault) };

    fn fmt<W: fmt::Write>(&self, f: &mut fmt::Formatter<W>) -> fmt::Result {
        f.write_str(match self {
            DigestFault::Memory => "out of memory",
            DigestFault::Malformed => "malformed",
            DigestFault::NoneKnown => "none-known",
            DigestFault::Mismatch { algorithm, .. } => match algorithm {
                Algorithm::Sha256 => "mismatch sha-256",
                Algorithm::Sha512 => "mismatch sha-512",
            },
        })
    }
}

impl Error for DigestFault {}

impl From<Memory> for DigestFault {
    ghost use Rattle.std.specs.Prelude.{◌≡◌};
    ghost use Rattle.content_digest.specs.declared.fault.DigestFault.TheVariants.{Memory as OutOfMemory};

    ghost from_gives = { λ _ fault. fault ≡ OutOfMemory };

    fn from(_memory: Memory) -> DigestFault {
        DigestFault::Memory
    }
}

impl From<SfError> for DigestFault {
    ghost use Rattle.std.specs.Prelude.{◌≡◌};
    ghost use Rattle.content_digest.specs.Faults.{fault_of};

    ghost from_gives = { λ error fault. fault ≡ fault_of error };

    fn from(error: SfError) -> DigestFault {
        match error {
            SfError::Memory => DigestFault::Memory,
            SfError::Syntax(_) => DigestFault::Malformed,
        }
    }
}
