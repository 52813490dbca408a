//! Normal forms of messages, and explanations of two records of one message: the rewritings that
//! lead both to messages that are alike, or the first covered field that differs (RFC 9421 section
//! 1.1).
//!
//! ```text
//! // E: `A:  x`, of which label s covers `a`; F: `a:x`
//! explain(alloc, &e, &f, b"s")?       // Same { first: case h 1 a, pad h 1 - - .., second: .. }
//! normal_form(alloc, &e, b"s", &params)?.message    // E with `a:x`, each name in lower case
//! ```
#![tactic(auto)]

mod agreement;
mod basis;
mod clean;
mod content;
mod explanation;
mod fault;
mod join;
mod laws;
mod line;
mod normal;
mod pieces;
mod side;

pub use basis::{Basis, FixedName};
pub use explanation::{Explained, explain};
pub use fault::{ExplainFault, NormalFault};
pub use laws::{a_message_has_one_normal_form, explanations_are_decided, explanations_are_sound};
pub use normal::{Normal, normal_form};
