//! Why a run of `hms` is refused: the line that it writes, and the status that it gives.
//!
//! ```text
//! let refusal = Refusal::Of(Role::Input, FileRefusal::Message(MessageFault::Truncated(0)));
//! refusal.line(alloc)? // `refused input truncated 0` and LF
//! refusal.status()     // Status::BadInput
//! ```
#![tactic(auto)]

mod file;
mod hint;
mod hint_conf;
mod hint_fields;
mod hint_wishes;
mod laws;
mod limit_laws;
mod refusal;
mod refusal_text;
mod role;

pub use file::FileRefusal;
pub use laws::{a_refusal_has_a_status_of_its_own, a_refusal_is_one_line};
pub use limit_laws::limits_are_these;
pub use refusal::{
    CommandRefusal, DigestRefusal, MAX_CONF_BYTES, MAX_INPUT_BYTES, MAX_RECORDING_BYTES, Refusal,
    StepRefusal,
};
pub use role::Role;
