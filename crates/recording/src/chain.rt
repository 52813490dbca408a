//! Recorded chains.

ghost use Rattle.std.specs.Prelude.{◌≡◌};
ghost use Rattle.recording.specs.declared.chain.OrderFault.TheVariants.{Memory as OutOfMemory};

use crate::limits::MAX_HOPS;
use sfv_text::{Memory, Sequence};
use std::error::Error;
use std::fmt;

/// What the messages of a chain are.
#[derive(Clone, Copy)]
pub enum Subject<'r> {
    /// Requests.
    Requests,
    /// Responses, and the request that they answer, where it is recorded.
    Responses(Option<&'r [u8]>),
}

/// A hop as it is recorded.
#[derive(Clone, Copy)]
pub struct RecordedHop<'r> {
    /// The moment, where the hop has one.
    pub moment: Option<u64>,
    /// The index of the script's item. The message is the next one.
    pub item: usize,
    /// The bytes of the script.
    pub script: &'r [u8],
    /// The bytes of the message that came out.
    pub message: &'r [u8],
}

/// A chain as it is recorded: a message, and then for each hop a script and the message that came
/// out. Whether the bytes are messages and scripts isn't said.
#[derive(Drop)]
pub struct RecordedChain<'r> {
    /// The moment of message 0.
    pub moment: u64,
    /// What the messages are.
    pub subject: Subject<'r>,
    /// The index of the item of message 0. That of the related request, if any, is before it.
    pub item: usize,
    /// The bytes of message 0.
    pub first: &'r [u8],
    /// The hops.
    pub hops: Sequence<RecordedHop<'r>>,
}

/// Why items aren't a chain.
#[derive(Clone, Copy, Debug, PartialEq, Eq)]
pub enum OrderFault {
    /// Out of memory. It says nothing of the items.
    Memory,
    /// The line of the first item that doesn't come in a chain's order is at this offset, or that
    /// of the last item, where the items end before the chain does.
    Order(u64),
    /// The chain has more than `MAX_HOPS` hops.
    TooManyHops,
}

/// The word that output has for it, with the limit that is passed, or where it is.
impl fmt::Display for OrderFault {
    ghost use Rattle.std.specs.Prelude.{Some};
    ghost use Rattle.recording.specs.Words.{order_fault_text};

    ghost output = { λ fault. Some (order_fault_text fault) };

    fn fmt<W: fmt::Write>(&self, f: &mut fmt::Formatter<W>) -> fmt::Result {
        match self {
            OrderFault::Memory => f.write_str("out of memory"),
            OrderFault::Order(offset) => write!(f, "chain {offset}"),
            OrderFault::TooManyHops => write!(f, "hops {MAX_HOPS}"),
        }
    }
}

impl Error for OrderFault {}

impl From<Memory> for OrderFault {
    ghost from_gives = { λ _ fault. fault ≡ OutOfMemory };

    fn from(_memory: Memory) -> OrderFault {
        OrderFault::Memory
    }
}
