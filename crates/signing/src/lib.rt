//! Signs messages (RFC 9421 section 3.1): what a configuration or a field `Accept-Signature` (RFC
//! 9421 section 5.1) asks to be signed, and the signed message.
//!
//! ```text
//! let spec = spec_of(alloc, conf, true, 1618884473, None)?; // what the configuration asks for
//! let text = sign(alloc, &context, &spec)?;                 // the message with its signature
//! for spec in wanted(alloc, view, conf, now)?.iter() { .. } // one for each wish of the field
//! ```
#![tactic(auto)]

mod asked;
mod fault;
mod laws;
mod limit;
mod limit_laws;
mod lines;
mod mac;
mod message;
mod parts;
mod place;
mod refuse;
mod self_cover;
mod spec;
mod wish;
mod wishes;

pub use asked::spec_of;
pub use fault::{SignFault, WantFault};
pub use laws::{
    a_configuration_asks_for_one_signature, a_message_is_signed_or_has_a_fault,
    wishes_are_met_or_have_a_fault,
};
pub use limit_laws::limits_are_these;
pub use mac::TAG_BYTES;
pub use message::{sign, sign_beside};
pub use self_cover::first_self_cover;
pub use spec::{SignSpec, Specs};
pub use wishes::wanted;
