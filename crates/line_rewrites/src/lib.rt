//! Rewritings of the field lines of a message on its way: what each gives, and which of them keep
//! a signature (RFC 9421 section 1.1).
//!
//! ```text
//! let text = make_lines(alloc, &context, &step)?;              // or it isn't applicable
//! let message = sized_message(alloc, text.bytes(), ..)?;       // what the step gives
//! let condition = line_condition(context.message, &step);      // once for all labels
//! condition.is_met(&label_read.params)                         // the label's base stays
//! ```
#![tactic(auto)]

mod covered;
mod fault;
mod laws;
mod line;
mod permit;
mod raw;
mod sides;
mod sized;
mod step;
mod write;

pub use covered::{covers_field, is_field_on, is_own_field};
pub use fault::ApplyFault;
pub use laws::{
    a_line_step_gives_one_message, a_line_step_is_permitted_or_not, a_text_has_one_sound_message,
};
pub use line::{append_text_line, append_value};
pub use permit::{LineCondition, has_value, line_condition, number_condition, value_condition};
pub use raw::{is_spacing, without_first_spacing, without_last_spacing};
pub use sides::SideLines;
pub use sized::sized_message;
pub use step::make_lines;
