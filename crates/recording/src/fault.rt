//! Why bytes are no recording.

use crate::limits::MAX_ITEM_BYTES;
use std::error::Error;
use std::fmt;

/// Why bytes are no recording. The first that reading from the left meets is answered.
#[derive(Clone, Copy, Debug, PartialEq, Eq)]
pub enum RecordingFault {
    /// Out of memory. Recordings are read without memory, so this is never answered.
    Memory,
    /// The offset is the first at which the bytes up to and with it begin no recording, or that of
    /// the end where only more bytes are missing. Limits on items and the order of moments are left
    /// aside.
    Syntax(u64),
    /// The line at this offset says that its item has more than `MAX_ITEM_BYTES` bytes.
    ItemTooLong(u64),
    /// The line at this offset has an earlier moment than the one before it.
    MomentFalls(u64),
}

/// The word that output has for it, with the limit that is passed, or where it is.
impl fmt::Display for RecordingFault {
    ghost use Rattle.std.specs.Prelude.{Some};
    ghost use Rattle.recording.specs.Words.{recording_fault_text};

    ghost output = { λ fault. Some (recording_fault_text fault) };

    fn fmt<W: fmt::Write>(&self, f: &mut fmt::Formatter<W>) -> fmt::Result {
        match self {
            RecordingFault::Memory => f.write_str("out of memory"),
            RecordingFault::Syntax(offset) => write!(f, "recording {offset}"),
            RecordingFault::ItemTooLong(_) => write!(f, "item {MAX_ITEM_BYTES}"),
            RecordingFault::MomentFalls(offset) => write!(f, "moment {offset}"),
        }
    }
}

impl Error for RecordingFault {}
