//! Recordings: messages with the moments at which they were seen, and scripts that say how one
//! message became the next.
//!
//! A recording is a line that names the format, items, and a last line. The first item is a moment,
//! one line. A message or a script is a line that says how many bytes it has, those bytes, and LF:
//! so bytes of any kind can be in it. Items in the order of a chain are one: `recorded_chain`.
//!
//! ```text
//! hms-recording 1
//! at 1618884473
//! request 18
//! GET / HTTP/1.1....
//!
//! end
//!
//! read_recording(alloc, b"hms-recording 1\nat 5\nend\n") // one item, at offset 16
//! read_recording(alloc, b"hms-recording 1\nat 05\nend\n") // Err(RecordingFault::Syntax(20))
//! ```
//!
//! A recording is kept as its text alone. Its items are read from it one at a time, and borrow
//! their bytes. `ItemReader` reads the same items from a source, one at a time, and keeps the bytes
//! of one item and of one piece of the source at most.
#![tactic(auto)]

mod chain;
mod chain_laws;
mod fault;
mod held;
mod item;
mod item_fault;
mod laws;
mod limit_laws;
mod limits;
mod order;
mod read;
mod reader;
mod view;
mod word;

pub use chain::{OrderFault, RecordedChain, RecordedHop, Subject};
pub use chain_laws::items_are_a_chain_or_not;
pub use fault::RecordingFault;
pub use item::{Item, ItemBody, Role};
pub use item_fault::ItemFault;
pub use laws::{
    a_text_is_a_recording_or_has_a_fault, the_first_fault_is_that_from_the_left,
    the_rest_is_read_by_itself,
};
pub use limit_laws::limits_are_these;
pub use limits::{MAX_HOPS, MAX_ITEM_BYTES, MAX_ITEMS};
pub use order::{recorded_chain, role_of};
pub use read::read_recording;
pub use reader::{ItemReader, MAX_PIECE_BYTES, ReaderStage};
pub use view::{Items, Recording};
