//! Why items aren't audited.

use msg_body::MessageFault;
use recording::MAX_HOPS;
use rewrite_script::{MAX_SCRIPT_BYTES, ScriptFault};
use sfv_text::Memory;
use std::error::Error;
use std::fmt;

/// Why the items of a recording aren't audited. Where several hold, the first in this order is
/// answered; of the last three, the one of the first item. Items are counted from 0.
#[derive(Clone, Copy, Debug, PartialEq, Eq)]
pub enum ChainFault {
    /// Out of memory. It says nothing of the items.
    Memory,
    /// The line of the first item that doesn't come in a chain's order is at this offset, or that
    /// of the last item, where the items end before the chain does.
    Order(u64),
    /// The chain has more than `MAX_HOPS` hops.
    TooManyHops,
    /// The item is no message of its role.
    Message(usize, MessageFault),
    /// The item is no script.
    Script(usize, ScriptFault),
    /// The item is a script of more than `MAX_SCRIPT_BYTES` bytes.
    ScriptTooLong(usize),
}

/// The words that output has for it, with the limit that is passed, or where it is. Before those
/// that name no item output has `input`.
impl fmt::Display for ChainFault {
    ghost use Rattle.std.specs.Prelude.{Some};
    ghost use Rattle.hop_audit.specs.Words.{chain_fault_text};

    ghost output = { λ fault. Some (chain_fault_text fault) };

    fn fmt<W: fmt::Write>(&self, f: &mut fmt::Formatter<W>) -> fmt::Result {
        match self {
            ChainFault::Memory => f.write_str("out of memory"),
            ChainFault::Order(offset) => write!(f, "chain {offset}"),
            ChainFault::TooManyHops => write!(f, "hops {MAX_HOPS}"),
            ChainFault::Message(index, fault) => write!(f, "item {index} {fault}"),
            ChainFault::Script(index, fault) => write!(f, "item {index} {fault}"),
            ChainFault::ScriptTooLong(index) => write!(f, "item {index} bytes {MAX_SCRIPT_BYTES}"),
        }
    }
}

impl Error for ChainFault {}

impl From<Memory> for ChainFault {
    ghost use Rattle.std.specs.Prelude.{◌≡◌};
    ghost use Rattle.hop_audit.specs.declared.fault.ChainFault.TheVariants.{Memory as OutOfMemory};

    ghost from_gives = { λ _ fault. fault ≡ OutOfMemory };

    fn from(_memory: Memory) -> ChainFault {
        ChainFault::Memory
    }
}
