//! Input and output: the traits of what the program reads and writes, with a count of faults, and
//! what stands for them in memory and over std.
//!
//! ```text
//! let mut source = MemSource::new(alloc, b"GET /a HTTP/1.1", 1, &[])?;
//! let text = fill(alloc, &mut source, 15)?; // 15 calls of one byte, and the end
//! let mut sink = MemSink::new(alloc, 20, 2, &[7])?;
//! put_all(&mut sink, text.bytes())          // Err(Failed): calls of two bytes, and call 7 fails
//! sink.taken()                              // b"GET /a HTTP/1."
//! ```
#![tactic(auto)]

mod calls;
mod dir_shelf;
mod end;
mod faults;
mod limit_laws;
mod mem_shelf;
mod mem_sink;
mod mem_source;
mod read_write;
mod shelf;
mod sink;
mod source;
mod status;
mod std_sink;
mod std_source;
mod whole_file;

pub use dir_shelf::DirShelf;
pub use faults::Failed;
pub use limit_laws::limits_are_these;
pub use mem_shelf::MemShelf;
pub use mem_sink::MemSink;
pub use mem_source::MemSource;
pub use read_write::{FillError, MAX_LIMIT, fill, put_all};
pub use shelf::Shelf;
pub use sink::Sink;
pub use source::Source;
pub use status::Status;
pub use std_sink::StdSink;
pub use std_source::StdSource;
pub use whole_file::{FileError, take_file};
