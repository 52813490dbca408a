//! Why a stream isn't served to its end.

ghost use Rattle.std.specs.Prelude.{◌≡◌};
ghost use Rattle.gateway.specs.Streams.{stream_fault_of};
ghost use Rattle.gateway.specs.declared.fault.StreamFault.TheVariants.{Memory as OutOfMemory, NotWritten};

use hms_io::Failed;
use recording::{ItemFault, RecordingFault};
use sfv_text::Memory;

/// Why a stream isn't served to its end. The records of the messages before were written.
#[derive(Clone, Copy, PartialEq, Eq)]
pub enum StreamFault {
    /// Out of memory. It says nothing of the stream.
    Memory,
    /// A read failed.
    NotRead,
    /// A write failed.
    NotWritten,
    /// It is no recording. The fault is never out of memory.
    Recording(RecordingFault),
    /// The line of an item that isn't in its place is at this offset: after a related request one
    /// that is no response, a script, or a related request at the end.
    OutOfPlace(u64),
    /// It has more than `MAX_ITEMS` items.
    TooManyItems,
}

impl From<Memory> for StreamFault {
    ghost from_gives = { λ _ fault. fault ≡ OutOfMemory };

    fn from(_memory: Memory) -> StreamFault {
        StreamFault::Memory
    }
}

/// The fault of a sink.
impl From<Failed> for StreamFault {
    ghost from_gives = { λ _ fault. fault ≡ NotWritten };

    fn from(_failed: Failed) -> StreamFault {
        StreamFault::NotWritten
    }
}

/// The fault of a source, or of what it gives.
impl From<ItemFault> for StreamFault {
    ghost from_gives = { λ own fault. fault ≡ stream_fault_of own };

    fn from(fault: ItemFault) -> StreamFault {
        match fault {
            ItemFault::Memory => StreamFault::Memory,
            ItemFault::Failed => StreamFault::NotRead,
            ItemFault::Recording(fault) => StreamFault::Recording(fault),
            ItemFault::TooManyItems => StreamFault::TooManyItems,
        }
    }
}
