//! The options of the commands of `hms`: the names of commands and of options, which command takes
//! which option, the words that an option may have, and the numbers of `sample`. All is read
//! without memory.
//!
//! ```text
//! CommandName::of_word("audit") // Some(CommandName::Audit)
//! CommandOption::Now.is_taken_by(CommandName::Audit) // false
//! read_options(CommandName::Audit, &words) // of `--conf a.toml`: conf is Some("a.toml")
//! count_of("65") // None
//! ```
//!
//! `specs/` has the row of each option, lists of options and the words that they are, and the laws
//! of both.
#![tactic(auto)]

mod laws;
mod limit_laws;
mod names;
mod options;
mod sample_words;
mod usage;

pub use laws::{
    numbers_are_below, options_are_found_in_turn, options_have_their_words, words_are_one_list,
};
pub use limit_laws::limits_are_these;
pub use nonces::MAX_NONCE_BYTES;
pub use options::{
    CommandName, CommandOption, MAX_MOMENT_DIGITS, OptionWords, number_of, read_options,
};
pub use sample_words::{MAX_COUNT_DIGITS, MAX_SAMPLE_HOPS, MAX_SEED_DIGITS, count_of, seed_of};
