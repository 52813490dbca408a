//! Scripts, whose lines say how a message is rewritten on its way.
//!
//! A proxy may change a message and keep what it says (RFC 9110 section 5.3, RFC 9112 section 5.2):
//! it pads a value, joins two lines of one name, moves a line, and more. A line of a script names
//! one such rewriting. What a rewriting gives, and which of them keep a signature, isn't said here.
//!
//! ```text
//! pad h 1 ss -            // line 1 of the header: two SP before its value, nothing after it
//! fold h 3 5 t            // the blank at offset 5 of line 3 becomes CRLF and HTAB
//! unfold h 3 5
//! join h 2 4              // lines 2 and 4 become one
//! split t 0 7             // line 0 of the trailer section becomes two at its comma
//! move h 5 0
//! case h 0 HOST
//! add h 2 Via 1.1 proxy
//! remove t 1
//! add-label b AAAA ();created=1 // signature lines with label b, tag AAAA and these parameters
//! rechunk 5 13            // the content in chunks of 5 and 13 bytes
//! chunk 5 13
//! dechunk
//! origin
//! absolute
//! host example.com
//! query ?a=1              // the target's query; `query` alone takes it away
//! resf h example-dict
//! ```
//!
//! ```text
//! read_script(alloc, b"move h 1 0\n") // a script of one rewriting
//! read_script(alloc, b"move h 1 0")   // Err(ScriptFault::BadLine(0)), for want of LF
//! ```
#![tactic(auto)]

mod argument;
mod fault;
mod label;
mod laws;
mod limit_laws;
mod limits;
mod line;
mod print;
mod rewrite;
mod script;
mod step;

pub use fault::ScriptFault;
pub use laws::{a_line_has_one_rewriting, a_text_is_a_script_or_has_a_fault};
pub use limit_laws::limits_are_these;
pub use limits::{MAX_BLANKS, MAX_NUMBER_DIGITS, MAX_SCRIPT_BYTES, MAX_SCRIPT_LINES};
pub use print::print_script;
pub use rewrite::{LineRewrite, Rewrite, Script, Sizes, WholeRewrite};
pub use script::read_script;
pub use step::read_step;
