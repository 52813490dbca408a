//! The verdict on a label of a message (RFC 9421 section 3.2): accepted, or the first rule that
//! fails. The 34 rules, what a policy asks among them, and the line of a label and its verdict.
//!
//! ```text
//! let now = book.moment();
//! match verdict(alloc, &context, b"s", conf, now, Some(&book), steps)? {
//!     Verdict::Ok { keyid } => ..,           // the tag is right, under this key
//!     Verdict::Rule { number, place } => .., // Rule::NonceRepeated and Place::None, say
//! }
//! ```
#![tactic(auto)]

mod algorithm;
mod asked;
mod choice;
mod coverage;
mod digest;
mod judge;
mod known_tag;
mod laws;
mod line;
mod mac;
mod nonce;
mod outcome;
mod policy;
mod tag_param;
mod times;
mod verifier;

pub use asked::asked_labels;
pub use choice::{policy_of, window_of};
pub use judge::verdict;
pub use known_tag::{SignedLabel, known_with};
pub use laws::{
    a_label_has_one_verdict, a_label_without_a_policy_fails_by_its_tag,
    a_signed_label_is_accepted_by_the_other_rules, a_verdict_depends_on_its_signature,
    the_window_covers_each_policy, two_messages_with_one_tag_agree,
};
pub use line::append_verdict_line;
pub use mac::tag_matches;
pub use nonce::asks_new;
pub use nonces::MAX_MOMENT;
pub use outcome::Verdict;
pub use signatures::{
    DigestReason, LabelFault, LabelRead, Labels, Place, Rule, SignatureFields,
    a_label_has_one_reading, a_message_has_one_list_of_labels, context_for, labels_of, read_label,
};
pub use times::last_moment;
pub use verifier::Verifier;
