//! The commands of `hms` over a configuration and a message: the signature base that `base` writes
//! (RFC 9421 section 2.5), the verdicts that `verify` writes (section 3.2), the signed message
//! that `sign` writes (sections 3.1 and 5.1), and the message after the steps of a script that
//! `rewrite` writes (section 1.1). They go over what `intake` reads, and over the context that all
//! of it gives. `audit` writes the report on a recorded chain of messages, over a configuration and
//! an input that is a recording. `sample` writes the summary of the report on a chain that is drawn
//! from a seed. `explain` writes the rewritings that lead two records of one message to messages
//! that are alike. `lists` writes the message of a recorded list of fields, or the list of a
//! message. `negotiate` writes a response with the signatures and the digest that its request asks
//! for (RFC 9421 section 5).
//!
//! ```text
//! let conf = read_configuration(alloc, Some("hms.toml"), &mut shelf)?;
//! let message = message_of_role(alloc, Reading::of_input(None), Role::Input, input)?;
//! let context = context_for(&conf, &message, None);
//! let outcome = base_outcome(alloc, b"(\"@authority\")", &context)?;
//! outcome.status()             // Status::Done
//! outcome.into_parts(alloc)?.0 // the line of `@authority`, and that of the signature parameters
//! ```
#![tactic(auto)]

mod audit;
mod base;
mod covered;
mod explain;
mod laws;
mod lists;
mod negotiate;
mod outcome;
mod rewrite;
mod sample;
mod sign;
mod verify;

pub use audit::audit_outcome;
pub use base::base_outcome;
pub use explain::explain_outcome;
pub use laws::{
    auditing_has_one_outcome, each_layer_has_an_answer, each_layer_is_decided,
    explaining_has_one_outcome, negotiating_has_one_outcome, rewriting_has_one_outcome,
    sampling_has_one_outcome, signing_has_one_outcome, turning_has_one_outcome,
    verdicts_have_one_outcome, what_is_rewritten_keeps_its_verdict,
    what_is_signed_is_rightly_signed,
};
pub use lists::{list_outcome, message_outcome};
pub use negotiate::negotiate_outcome;
pub use outcome::Outcome;
pub use rewrite::rewrite_outcome;
pub use sample::sample_outcome;
pub use sign::{sign_outcome, wished_outcome};
pub use verdicts::context_for;
pub use verify::verify_outcome;
