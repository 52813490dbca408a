//! What a configuration of HTTP Message Signatures is (RFC 9421): what no message says, and has to
//! be known to verify a signature or to make one. How a text says it is the matter of `conf`.
//!
//! ```text
//! let mut conf = Conf::standard(alloc)?;
//! conf.scheme()                 // Scheme::Https
//! conf.add_key(b"a", b"1")?;
//! conf.key(b"a")                // Some(b"1")
//! conf.policy_for(Some(b"app")) // Some(_): the policy selects no tag, so it is for each
//! NonceUse::of_word(b"check")   // Some(NonceUse::Check)
//! read_covered(alloc, b"(\"date\" \"@authority\")")? // Some, or None for no list
//! ```
#![tactic(auto)]

mod calls;
mod conf;
mod covered;
mod gateway_conf;
mod keyid;
mod keys;
mod laws;
mod limit_laws;
mod limits;
mod policies;
mod policy;
mod sign_conf;
mod words;

pub use conf::Conf;
pub use covered::read_covered;
pub use gateway_conf::GatewayConf;
pub use keyid::is_keyid;
pub use keys::Keys;
pub use laws::{a_policy_that_selects_the_tag_is_chosen, nothing_else_is_chosen};
pub use limit_laws::limits_are_these;
pub use limits::{
    DAY_WINDOW, DEFAULT_MAX_AGE, DEFAULT_SKEW, MAX_AGE, MAX_EXPIRES_AFTER, MAX_KEY_BYTES,
    MAX_POLICIES, MAX_SKEW,
};
pub use nonces::{MAX_ENTRIES, MAX_KEYID_BYTES, MAX_WINDOW};
pub use policies::Policies;
pub use policy::{DigestUse, NonceUse, Policy};
pub use sign_conf::{SignConf, SignDigest};
pub use words::{expires_of_word, kind_of_word, scheme_of_word};
