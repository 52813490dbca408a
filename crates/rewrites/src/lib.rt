//! Rewritings of a message on its way: what each gives, and which of them keep a signature (RFC
//! 9421 section 1.1).
//!
//! ```text
//! let text = apply(alloc, &context, &step)?;                      // or it isn't applicable
//! permits(alloc, &context, &step, b"sig1", &label_read.params)?   // the label's base stays
//! let text = walk(alloc, &context, &steps, &mut watcher)?;        // after all of them
//! ```
#![tactic(auto)]

mod fault;
mod laws;
mod permit;
mod step;
mod walks;
mod watcher;

pub use fault::WalkFault;
pub use laws::{
    a_step_gives_one_message, a_step_is_permitted_or_not, a_step_rests_on_messages,
    permitted_steps_keep_a_signature,
};
pub use line_rewrites::ApplyFault;
pub use permit::{StepCondition, permits};
pub use step::{apply, make};
pub use walks::walk;
pub use watcher::{Judgement, Watcher};
