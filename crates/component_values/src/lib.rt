//! The values of covered components, and how a component lacks one (RFC 9421 sections 2 to 2.4).
//!
//! The components of signature parameters are prepared once; then their values can be fed as often
//! as is wanted, without memory.
//!
//! ```text
//! // over a response and the request that it answers, params being `("@status" "@path";req)`
//! let prepared = prepare(alloc, &context, &params)?; // or the first component that lacks a value
//! prepared.feed(0, &mut hasher);                     // 503
//! prepared.feed(1, &mut hasher);                     // /foo
//! ```
//!
//! `prepare_in` does it for several signatures of one message. It reads the query once, and each
//! structured field once for `sf` and once for `key`.
#![tactic(auto)]

mod byte_sequence;
mod context;
mod context_field;
mod covered;
mod fault;
mod field;
mod form;
mod laws;
mod lines;
mod plan;
mod prepared;
mod readings;
mod strict;
mod value;

pub use context::Context;
pub use covered::{prepare, prepare_in};
pub use derived_values::{Lack, NoValue};
pub use fault::ValueFault;
pub use laws::{
    components_depend_on_their_lines, components_depend_on_what_they_are_drawn_from,
    components_have_one_answer, signatures_depend_on_their_components, signatures_have_one_answer,
    strict_texts_come_to_the_same,
};
pub use prepared::Prepared;
pub use readings::Readings;
pub use strict::strict_answer;
pub use value::component_text;
