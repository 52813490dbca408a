//! Rewritings of a whole message on its way, of its target, its content, or a field by its name:
//! what each gives, and which of them keep a signature (RFC 9421 section 1.1).
//!
//! ```text
//! let text = make_whole(alloc, &context, &step)?;             // or it isn't applicable
//! let condition = whole_condition(alloc, &context, &step)?;   // once for all labels
//! condition.is_met(&label_read.params)                        // the label's base stays
//! ```
#![tactic(auto)]

mod condition;
mod content;
mod covered;
mod field;
mod label;
mod laws;
mod permit;
mod permit_field;
mod permit_target;
mod step;
mod target;
mod write;

pub use condition::WholeCondition;
pub use laws::{
    a_whole_rewriting_gives_one_message, a_whole_rewriting_is_permitted_or_not,
    content_sent_in_another_way_is_the_same,
};
pub use permit::whole_condition;
pub use step::make_whole;
