//! Digests of content, as the field `Content-Digest` has them (RFC 9530 sections 2 and 3).
//!
//! The field is a Dictionary whose keys are names of hash algorithms and whose members are Byte
//! Sequences. Of the registered algorithms (RFC 9530 section 5) the two that aren't deprecated are
//! known, SHA-256 and SHA-512. A digest is that of the content, which is what the transfer coding
//! carried: chunked content is taken out of its chunks first.
//!
//! ```text
//! // The content `{"hello": "world"}`
//! make_digest(alloc, Algorithm::Sha256, &view)
//!     // sha-256=:X48E9qOokqqrvdts8nOJRJN3OWDUoyWxBf7kbu9DBPE=:
//! check_digest(alloc, b"sha-256=:X48E9qOokqqrvdts8nOJRJN3OWDUoyWxBf7kbu9DBPE=:", &view) // Ok(())
//! check_digest(alloc, b"md5=:AAAA:", &view) // Err(DigestFault::NoneKnown)
//! ```
#![tactic(auto)]

mod algorithm;
mod check;
mod digest;
mod fault;
mod laws;
mod make;
mod member;

pub use algorithm::Algorithm;
pub use check::{check_dict, check_digest};
pub use fault::DigestFault;
pub use laws::{digests_depend_on_their_dictionary, digests_hold_or_have_one_fault};
pub use make::make_digest;
