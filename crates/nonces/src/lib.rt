//! The book of seen nonces: a verifier that refuses replays remembers the nonces of the signatures
//! that it accepted until these are too old (RFC 9421 section 7.2.2).
//!
//! ```text
//! let mut book = NonceBook::open(alloc, 1_024, 300, now)?;
//! book.advance(now, &mut steps);
//! if book.find(keyid, nonce, &mut steps) {
//!     return Seen;
//! }
//! book.record(keyid, nonce, until, &mut steps)?;
//! ```
#![tactic(auto)]

mod arrays;
mod book;
mod buckets;
mod entry;
mod full;
mod laws;
mod limit_laws;
mod limits;
mod short;
mod steps;
mod store;
mod wheels;

pub use book::NonceBook;
pub use full::Full;
pub use laws::{
    a_capacity_has_one_count_of_buckets, same_entries_are_alike, same_entries_are_an_equivalence,
};
pub use limit_laws::limits_are_these;
pub use limits::{
    MAX_ENTRIES, MAX_HOURS, MAX_KEYID_BYTES, MAX_MOMENT, MAX_NONCE_BYTES, MAX_WINDOW,
    SECONDS_PER_HOUR,
};
pub use steps::Steps;
