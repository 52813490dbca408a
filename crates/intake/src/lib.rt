//! What a command reads before it is done: the configuration, the request that the input answers
//! (RFC 9421 section 2.4), the message that wishes signatures (section 5.1), the script, and the
//! other record of the message, each in a file or none; and the input, which is to be one whole
//! message. Each is read, or is refused with the one cause for which it is, and what ends a run is
//! a `Stop`.
//!
//! ```text
//! let conf = read_configuration(alloc, Some("hms.toml"), &mut shelf)?;
//! check_tables(alloc, Needs::SignTable, &conf)?;
//! let text = fetch_message(alloc, Role::Request, Some("request.http"), &mut shelf)?;
//! let request = fetched_message(alloc, Role::Request, Reading::of_request(), text.as_ref())?;
//! let script = read_script_file(alloc, None, &mut shelf)?; // no steps
//! let reading = Reading::of_input(request.as_ref());
//! let message = message_of_role(alloc, reading, Role::Input, input)?;
//! ```
#![tactic(auto)]

mod configured;
mod laws;
mod message;
mod message_file;
mod script_file;
mod stop;
mod tables;
mod taken;

pub use configured::read_configuration;
pub use laws::{
    a_text_is_of_bytes, what_is_read_has_an_answer, what_is_read_has_its_form,
    what_is_read_is_decided,
};
pub use message::message_of_role;
pub use message_file::{fetch_message, fetched_message};
pub use msg_body::Reading;
pub use script_file::read_script_file;
pub use stop::Stop;
pub use tables::{Needs, check_tables};
pub use taken::{FileWords, FilesRead, Taken};
