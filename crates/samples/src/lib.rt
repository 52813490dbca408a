//! Sample chains: a signed request, and hops that rewrite it, drawn from a seed. The load test that
//! anyone can run: the request is signed (RFC 9421 section 3.1), each hop pads a line, moves a line
//! and cuts the content anew, and the chain is audited.
//!
//! ```text
//! let summary = sample(alloc, 7, 1)?;
//! summary.steps     // 3
//! summary.kept      // 1
//! append_summary(alloc, &summary, &mut text)?; // hops 1, steps 3, permitted 1, kept 1, ok 2, ..
//! ```
#![tactic(auto)]

mod chain;
mod conf;
mod draws;
mod hop;
mod laws;
mod limit_laws;
mod limits;
mod read_fault;
mod request;
mod script;
mod summary;

pub use chain::sample;
pub use laws::{a_sample_has_one_summary, a_sample_keeps_its_signature};
pub use limit_laws::limits_are_these;
pub use limits::{CONTENT_BYTES, MOMENT, SIGNED_LINES};
pub use summary::{Summary, append_summary};
