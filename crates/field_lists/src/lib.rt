//! Lists of fields, as a client or a server of HTTP/2 or HTTP/3 logs a message (RFC 9113 section 8,
//! RFC 9114 section 4), and the messages of HTTP/1.1 that they are turned into, and back.
//!
//! ```text
//! let list = list_texts::read_fields(alloc, text)?;
//! to_message(alloc, &list, Scheme::Https)?.bytes() // GET / HTTP/1.1..
//! from_message(alloc, &context)?                   // the list of a message
//! ```
#![tactic(auto)]

mod control;
mod from_fault;
mod into_list;
mod into_message;
mod laws;
mod named;
mod parts;
mod to_fault;
mod values;

pub use from_fault::FromFault;
pub use into_list::from_message;
pub use into_message::to_message;
pub use laws::{
    a_list_comes_back, a_list_has_what_its_message_has, a_list_is_turned_or_has_a_fault,
    a_message_has_what_its_list_has,
};
pub use list_texts::{Field, FieldList};
pub use to_fault::{MessageLimit, ToFault};
