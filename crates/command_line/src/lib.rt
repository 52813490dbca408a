//! The command line of the program `hms`.
//!
//! ```text
//! read_words(after_name(&arguments)) // Some(Command::Verify(..)), without memory
//! ```
#![tactic(auto)]

mod command;
mod fault;
mod fault_text;
mod laws;

pub use command::{
    AuditWords, BaseWords, Command, ExplainWords, GatewayWords, ListsWords, NegotiateWords,
    RewriteWords, SampleWords, SignWords, VerifyWords, after_name, read_words,
};
pub use command_options::{
    CommandName, CommandOption, MAX_COUNT_DIGITS, MAX_MOMENT_DIGITS, MAX_NONCE_BYTES,
    MAX_SAMPLE_HOPS, MAX_SEED_DIGITS,
};
pub use fault::{WordsFault, WordsReason, words_fault};
pub use laws::{a_sample_is_bounded, arguments_are_a_command_or_none, arguments_have_one_command};
