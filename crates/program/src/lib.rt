//! All that the program `hms` does, over any devices: arguments, files, an input and an output.
//!
//! `run` reads the arguments, does what they ask for over the files of a shelf and the bytes of a
//! source, and writes the outcome to a sink. What it promises is what the program promises, and it
//! is proved once for all devices: those of the operating system, and those in memory that tests
//! hand in. The laws say what follows from it.
//!
//! ```text
//! let mut shelf = MemShelf::new(alloc, &[])?;
//! let mut source = MemSource::new(alloc, b"GET / HTTP/1.1\r\nA: 1\r\n\r\n", 7, &[])?;
//! let mut sink = MemSink::new(alloc, 1_000, 7, &[])?;
//! let ended = run(alloc, arguments, &mut shelf, &mut source, &mut sink);
//! ended.status  // the status to exit with
//! ended.refusal // why the run is refused, if it is
//! ```
#![tactic(auto)]

mod ended;
mod entry;
mod help;
mod laws;
mod over_message;
mod over_stream;
mod over_text;

pub use ended::Ended;
pub use entry::run;
pub use help::{
    AUDIT_TEXT, BASE_TEXT, COMMANDS, END_TEXT, EXPLAIN_TEXT, GATEWAY_TEXT, LISTS_TEXT,
    NEGOTIATE_TEXT, REWRITE_TEXT, SAMPLE_TEXT, SIGN_TEXT, TITLE_TEXT, VERIFY_TEXT, VERSION_TEXT,
};
pub use laws::{
    a_base_has_one_meaning, a_command_that_has_all_is_answered, a_refusal_is_one_line,
    a_stream_in_its_place_is_served, one_report, one_tag_has_one_meaning, the_intake_is_decided,
    what_is_explained_agrees, what_is_kept_has_one_base, what_is_negotiated_is_accepted,
    what_is_permitted_is_kept, what_is_rewritten_keeps_its_verdict, what_is_signed_is_accepted,
    what_is_turned_comes_back, what_is_turned_has_the_same_values,
};
