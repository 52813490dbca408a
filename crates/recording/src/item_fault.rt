//! Why no further item is read from a source.

use crate::fault::RecordingFault;
use crate::limits::MAX_ITEMS;
use hms_io::Failed;
use sfv_text::Memory;
use std::error::Error;
use std::fmt;

/// Why no further item is read from a source.
#[derive(Clone, Copy, Debug, PartialEq, Eq)]
pub enum ItemFault {
    /// Out of memory. It says nothing of what the source gives.
    Memory,
    /// A read failed.
    Failed,
    /// What the source gives is no recording. The fault is never out of memory.
    Recording(RecordingFault),
    /// More than `MAX_ITEMS` items came.
    TooManyItems,
}

/// The word that output has for it, with the limit that is passed, or where it is.
impl fmt::Display for ItemFault {
    ghost use Rattle.std.specs.Prelude.{Some};
    ghost use Rattle.recording.specs.Words.{item_fault_text};

    ghost output = { λ fault. Some (item_fault_text fault) };

    fn fmt<W: fmt::Write>(&self, f: &mut fmt::Formatter<W>) -> fmt::Result {
        match self {
            ItemFault::Memory => f.write_str("out of memory"),
            ItemFault::Failed => f.write_str("a read failed"),
            ItemFault::Recording(fault) => fault.fmt(f),
            ItemFault::TooManyItems => write!(f, "items {MAX_ITEMS}"),
        }
    }
}

impl Error for ItemFault {}

impl From<Memory> for ItemFault {
    ghost use Rattle.std.specs.Prelude.{◌≡◌};
    ghost use Rattle.recording.specs.declared.item_fault.ItemFault.TheVariants.{Memory as OutOfMemory};

    ghost from_gives = { λ _ fault. fault ≡ OutOfMemory };

    fn from(_memory: Memory) -> ItemFault {
        ItemFault::Memory
    }
}

impl From<Failed> for ItemFault {
    ghost use Rattle.std.specs.Prelude.{◌≡◌};
    ghost use Rattle.recording.specs.declared.item_fault.ItemFault.TheVariants.{Failed as ReadFailed};

    ghost from_gives = { λ _ fault. fault ≡ ReadFailed };

    fn from(_failed: Failed) -> ItemFault {
        ItemFault::Failed
    }
}
