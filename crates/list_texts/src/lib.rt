//! Lists of fields, as a client or a server of HTTP/2 or HTTP/3 logs a message (RFC 9113 section 8,
//! RFC 9114 section 4): their text, which is read and printed.
//!
//! A list's text is a line that names the format, fields, the content, trailer fields, and a last
//! line. A field is a line that says how many bytes its name and its value have, these bytes, and
//! LF.
//!
//! ```text
//! hms-fields 1
//! field 7 3
//! :methodGET
//! ..
//! content 0
//!
//! end
//!
//! let list = read_fields(alloc, text)?;
//! print_fields(alloc, &list)?.bytes() // the text again
//! ```
#![tactic(auto)]

mod fault;
mod laws;
mod limit_laws;
mod limits;
mod list;
mod print;
mod read;
mod stop;

pub use fault::FieldsFault;
pub use laws::{a_text_is_a_list_or_has_a_fault, the_first_fault_is_that_from_the_left};
pub use limit_laws::limits_are_these;
pub use limits::MAX_FIELD_BYTES;
pub use list::{Field, FieldList};
pub use print::print_fields;
pub use read::read_fields;
