//! Readers of structured fields (RFC 9651): Items, Inner Lists, Lists and Dictionaries.
//!
//! A text is read with spaces at both ends. A reader answers the value exactly where the grammar in
//! `specs/` has the text with that value; else it names the longest prefix of the text that begins
//! some text that is read.
//!
//! ```text
//! read_item(alloc, b" 1 ")         // the Integer 1
//! read_dict(alloc, b"a=1, b, a=2") // the members a=2 and b
//! read_inner(alloc, b"(a b")       // Err(SfError::Syntax(4))
//! read_item(alloc, b"%\"%ff\"")    // Err(SfError::Syntax(4))
//! ```
#![tactic(auto)]

mod bare;
mod byte_sequence;
mod class;
mod display_string;
mod error;
mod field;
mod inner;
mod laws;
mod member;
mod number;
mod params;
mod read;
mod separated;
mod string;

pub use error::SfError;
pub use laws::{
    a_dictionary_takes_a_further_member, a_text_has_one_answer, a_text_has_one_value,
    a_text_is_read_or_not, a_text_not_read_has_a_fault, strict_texts_are_distinct,
    strict_texts_read_as_the_same_dictionary, strict_texts_read_back, values_read_are_in_range,
};
pub use read::{has_key, read_dict, read_inner, read_item, read_list};
