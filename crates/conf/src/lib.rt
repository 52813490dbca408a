//! Configurations of HTTP Message Signatures (RFC 9421) as TOML documents: what a text says, and
//! why it is refused. The crate `settings` defines what a configuration is; its types have their
//! names here too.
//!
//! ```text
//! let conf = read_conf(alloc, b"[keys]\n\"k\" = \"AAEC\"")?;
//! conf.key(b"k")                // Some([0, 1, 2])
//! let mut conf = empty_conf(alloc)?;
//! conf.scheme()                 // Scheme::Https
//! conf.add_key(b"a", b"1")?;
//! conf.key(b"a")                // Some(b"1")
//! ```
#![tactic(auto)]

mod document;
mod fault;
mod gateway_reader;
mod judge;
mod key_texts;
mod kinds;
mod laws;
mod lists;
mod members;
mod policy_reader;
mod read;
mod sections;
mod sign_reader;
mod values;

pub use fault::ConfFault;
pub use laws::{
    a_configuration_is_valid, a_text_is_one_configuration, the_empty_text_is_a_configuration,
};
pub use read::{empty_conf, read_conf};
pub use settings::{
    Conf, DAY_WINDOW, DigestUse, GatewayConf, MAX_AGE, MAX_ENTRIES, MAX_EXPIRES_AFTER,
    MAX_KEY_BYTES, MAX_KEYID_BYTES, MAX_POLICIES, MAX_SKEW, MAX_WINDOW, NonceUse, Policies, Policy,
    SignConf, SignDigest, is_keyid,
};
