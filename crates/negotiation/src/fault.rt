//! Why signatures aren't made, and why responses aren't signed as their requests ask.

use sfv_text::Memory;
use signing::{SignFault, WantFault};
use std::error::Error;
use std::fmt;

/// Why one of several signatures isn't made.
#[derive(Clone, Copy, Debug, PartialEq, Eq)]
pub enum EachFault {
    /// Out of memory. It says nothing of the message.
    Memory,
    /// The signature at the index, counted from 0, isn't made for this reason; those before it are.
    Sign(usize, SignFault),
}

impl fmt::Display for EachFault {
    ghost use Rattle.std.specs.Prelude.{Some};
    ghost use Rattle.negotiation.specs.Words.{each_fault_text};

    ghost output = { λ fault. Some (each_fault_text fault) };

    fn fmt<W: fmt::Write>(&self, f: &mut fmt::Formatter<W>) -> fmt::Result {
        match self {
            EachFault::Memory => f.write_str("out of memory"),
            EachFault::Sign(_, fault) => write!(f, "{fault}"),
        }
    }
}

impl Error for EachFault {}

impl From<Memory> for EachFault {
    ghost use Rattle.std.specs.Prelude.{◌≡◌};
    ghost use Rattle.negotiation.specs.declared.fault.EachFault.TheVariants.{Memory as OutOfMemory};

    ghost from_gives = { λ _ fault. fault ≡ OutOfMemory };

    fn from(_memory: Memory) -> EachFault {
        EachFault::Memory
    }
}

/// Why a response isn't signed as its request asks, in the order in which it is judged.
#[derive(Debug, Drop)]
pub enum NegotiateFault {
    /// Out of memory. It says nothing of the response.
    Memory,
    /// The request has `Want-Content-Digest`, and it is no Dictionary, or its member `sha-256` or
    /// `sha-512` is no Integer from 0 to 10 (RFC 9530 section 4).
    WishMalformed,
    /// The request has `Want-Content-Digest`, and neither `sha-256` nor `sha-512` is acceptable.
    Unacceptable,
    /// The response has `Content-Digest`, and it isn't right, or it has no digest by the algorithm
    /// that the request asks for.
    DigestUnmet,
    /// The wishes of the request's `Accept-Signature` aren't met.
    Wanted(WantFault),
    /// The wish at the index, counted from 0, is the first whose signature isn't made.
    Sign(usize, SignFault),
}

impl fmt::Display for NegotiateFault {
    ghost use Rattle.std.specs.Prelude.{Some};
    ghost use Rattle.negotiation.specs.Words.{negotiate_fault_text};

    ghost output = { λ fault. Some (negotiate_fault_text fault) };

    fn fmt<W: fmt::Write>(&self, f: &mut fmt::Formatter<W>) -> fmt::Result {
        match self {
            NegotiateFault::Memory => f.write_str("out of memory"),
            NegotiateFault::WishMalformed => f.write_str("wish-malformed"),
            NegotiateFault::Unacceptable => f.write_str("wish-unacceptable"),
            NegotiateFault::DigestUnmet => f.write_str("wish-digest"),
            NegotiateFault::Wanted(fault) => write!(f, "{fault}"),
            NegotiateFault::Sign(_, fault) => write!(f, "{fault}"),
        }
    }
}

impl Error for NegotiateFault {}

impl From<Memory> for NegotiateFault {
    ghost use Rattle.std.specs.Prelude.{◌≡◌};
    ghost use Rattle.negotiation.specs.declared.fault.NegotiateFault.TheVariants.{Memory as OutOfMemory};

    ghost from_gives = { λ _ fault. fault ≡ OutOfMemory };

    fn from(_memory: Memory) -> NegotiateFault {
        NegotiateFault::Memory
    }
}

/// A fault of the wishes.
impl From<WantFault> for NegotiateFault {
    ghost use Rattle.std.specs.Prelude.{◌≡◌};
    ghost use Rattle.negotiation.specs.tools.Judged.{fault_of_want};

    ghost from_gives = { λ fault negotiated. negotiated ≡ fault_of_want fault };

    fn from(fault: WantFault) -> NegotiateFault {
        match fault {
            WantFault::Memory => NegotiateFault::Memory,
            _ => NegotiateFault::Wanted(fault),
        }
    }
}

/// A fault of the signatures.
impl From<EachFault> for NegotiateFault {
    ghost use Rattle.std.specs.Prelude.{◌≡◌};
    ghost use Rattle.negotiation.specs.tools.Judged.{fault_of_each};

    ghost from_gives = { λ fault negotiated. negotiated ≡ fault_of_each fault };

    fn from(fault: EachFault) -> NegotiateFault {
        match fault {
            EachFault::Memory => NegotiateFault::Memory,
            EachFault::Sign(index, fault) => NegotiateFault::Sign(index, fault),
        }
    }
}
