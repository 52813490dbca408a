//! Signs a response as its request asks: with each signature that the request's field
//! `Accept-Signature` wishes (RFC 9421 section 5), over the digest that its field
//! `Want-Content-Digest` asks for (RFC 9530 section 4).
//!
//! ```text
//! // Want-Content-Digest: sha-512=3, sha-256=10
//! // Accept-Signature: sig1=("@status" "content-digest");created
//! negotiate(alloc, &context, conf, 1618884473)? // with Content-Digest: sha-256=:..:, and sig1
//! sign_each(alloc, &context, specs.as_slice())? // with each of these signatures, in order
//! ```
#![tactic(auto)]

mod digest;
mod each;
mod fault;
mod laws;
mod preference;
mod response;

pub use each::sign_each;
pub use fault::{EachFault, NegotiateFault};
pub use laws::{
    a_message_has_each_signature_or_a_fault, a_response_has_the_chosen_digest,
    a_response_has_the_wished_signatures, a_response_is_negotiated_or_has_a_fault,
    one_digest_is_chosen,
};
pub use response::negotiate;
