//! HMAC with SHA-256 (RFC 2104), over a text that comes in pieces.
//!
//! ```text
//! let mut hmac = Hmac::new(b"Jefe");
//! hmac.update(b"what do ya want ");
//! hmac.update(b"for nothing?");
//! same_tag(&hmac.finish(), tag)
//! ```
//!
//! But for a kept key, nothing here takes memory or refuses anything. How long a call takes may
//! depend on the key and on the tags.
#![tactic(auto)]

mod hmac_key;
mod key;
mod mac;
mod tag;

pub use hmac_key::HmacKey;
pub use mac::Hmac;
pub use tag::same_tag;
