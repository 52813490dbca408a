//! The keys of a configuration, and the values that they take.
//!
//! A key is a row: its path in faults, as `policy.skew`; the table that has it, and its name there;
//! the rule for its value; whether its table has to have it; and the version that has it, where
//! not each has it. A rule says of which type a value is, and which of that type are allowed. What
//! a TOML document says is for the crate `conf`.
//!
//! ```text
//! is_table_key(Some(Version::One), TableName::Policy, "skew")   // true
//! is_table_key(Some(Version::Two), TableName::Policy, "skew")   // false
//! is_table_key(Some(Version::Two), TableName::Policies, "skew") // true
//! rows().len()                                                  // 36
//! places()[0].path()                                            // "gateway"
//! has_type(ValueRule::Skew, value)             // true of an integer
//! is_allowed(&document, ValueRule::Skew, value) // true of an integer from 0 to 3,600
//! text_of(Some(&table), "tag")                 // Some("app")
//! number_in(Some(&table), "skew", DEFAULT_SKEW) // 60 where the table names no number
//! ```
#![tactic(auto)]

mod allowed;
mod entries;
mod lookups;
mod table;
mod tags;
mod types;
mod windows;

pub use allowed::is_allowed;
pub use lookups::{array_in, member, member_of, number_in, table_in, text_in, text_of};
pub use table::{Row, TableName, ValueRule, Version, is_table_key, places, rows};
pub use types::has_type;
pub use windows::{has_long_window, has_window_over};
