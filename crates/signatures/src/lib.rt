//! Exchanges, a message with the request that it answers; the signatures of the message by their
//! labels (RFC 9421 sections 1.1, 4.1 and 4.2): what is read of a label, or the first of rules 1 to
//! 12 that fails, each part read once; and the signature base, the text that a signature signs
//! (section 2.5). The numbers and the words of all rules.
//!
//! ```text
//! let context = context_for(conf, &message, request.as_ref());
//! let mut exchange = Exchange::new(alloc, context);
//! for label in exchange.labels(alloc)?.as_slice() {
//!     let read = exchange.label(alloc, label.bytes())?;        // both signature fields, read once
//!     exchange.feed_base(alloc, &read.params, &mut hasher)?;   // so are structured fields
//! }
//! exchange.digest(alloc)?;                                     // whether the digests hold
//! let owned = Exchange::of(alloc, response, Some(&request), conf);
//! // Of a request with the signature of RFC 9421 appendix B.2.5 under the label `s`, alone:
//! labels_of(alloc, view)?                                      // `s`
//! let LabelRead { params, tag } = read_label(alloc, view, b"s")?; // three components, 32 bytes
//! let prepared = prepare(alloc, &context, &params)?;
//! feed_base(&prepared, &mut hasher);                           // the base, without memory
//! let text = base_bytes(alloc, &prepared)?;                    // the same text, owned
//! ```
#![tactic(auto)]

mod algorithm;
mod base;
mod base_laws;
mod buffer;
mod context;
mod digest;
mod exchange;
mod field;
mod fields;
mod held;
mod label;
mod labels;
mod laws;
mod message_signatures;
mod place;
mod read;
mod rule;
mod values;

pub use algorithm::{SUPPORTED_ALGORITHM, is_refused_algorithm};
pub use base::{base_bytes, feed_base};
pub use base_laws::a_base_has_one_reading;
pub use context::context_for;
pub use exchange::Exchange;
pub use field::{DictField, read_field};
pub use fields::{SignatureFields, labels_of, read_label};
pub use label::{LabelFault, LabelRead, Labels};
pub use laws::{
    a_label_has_one_reading, a_message_has_one_list_of_labels, a_rule_has_its_own_number,
    labels_depend_on_their_fields,
};
pub use message_signatures::MessageSignatures;
pub use place::{DigestReason, Place};
pub use rule::Rule;
