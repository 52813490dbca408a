//! The values of structured fields (RFC 9651) with their texts. The owned texts of `byte_grammar`,
//! of which they are made, are given on.
//!
//! ```text
//! let mut params = Params::new(alloc);
//! params.put(Text::from_bytes(alloc, b"a")?, BareItem::Integer(1))?;
//! params.put(Text::from_bytes(alloc, b"c")?, BareItem::Bool(true))?;
//! let bare = BareItem::Token(Text::from_bytes(alloc, b"abc")?);
//! print_item(alloc, &Item { bare, params })?.bytes() // abc;a=1;c
//! ```
#![tactic(auto)]

mod bare;
mod display_string;
mod index;
mod key;
mod laws;
mod pair;
mod pairs;
mod print;
mod value;

pub use byte_grammar::{
    Absorb, FedText, IN_PLACE, Memory, Sequence, Text, append_number, append_words,
};
pub use key::{are_string_bytes, is_key};
pub use laws::{equality_is_tested, keys_stay_distinct, strict_texts_are_printable};
pub use pair::Pair;
pub use pairs::Pairs;
pub use print::{
    append_params, append_string_item, print_bare, print_dict, print_inner, print_item, print_list,
    print_member,
};
pub use value::{BareItem, Dict, InnerList, Item, Items, List, Member, Params};
