//! Which values of its type a key takes.

ghost use Rattle.std.specs.Prelude.{◌≡◌, is_some, codes};
ghost use Rattle.toml.specs.Data.{get_member};
ghost use Rattle.toml.specs.View.{array_view, table_view, view};
ghost use Rattle.conf_values.specs.Parts.{members_in};
ghost use Rattle.conf_values.specs.Values.{is_allowed, is_array_allowed, is_integer_allowed, is_policy_count, is_table_allowed, is_text_allowed, is_within};

use crate::entries::{EntryTest, are_entries};
use crate::lookups::{member, table_in};
use crate::table::ValueRule;
use crate::tags::have_distinct_tags;
use rewrite_script::MAX_SCRIPT_LINES;
use settings::{
    DAY_WINDOW, DigestUse, MAX_AGE, MAX_ENTRIES, MAX_EXPIRES_AFTER, MAX_POLICIES, MAX_SKEW,
    NonceUse, SignDigest, expires_of_word, scheme_of_word,
};
use sfv_text::{are_string_bytes, is_key};
use toml::value::Array;
use toml::{Table, Value};

// ---- texts

/// Whether `keys` has the keyid.
fn is_keyid_of(document: &Table, keyid: &str) -> bool
    ensures { result ≡ is_some
        (get_member keyid.now (members_in (get_member (codes "keys") (table_view document.now)))) }
{
    match table_in(document, "keys") {
        None => false,
        Some(keys) => member(keys, keyid).is_some(),
    }
}

fn is_text_allowed(document: &Table, rule: ValueRule, text: &str) -> bool
    ensures { result ≡ is_text_allowed (table_view document.now) rule text.now }
{
    match rule {
        ValueRule::Scheme => scheme_of_word(text.as_bytes()).is_some(),
        ValueRule::Label => is_key(text.as_bytes()),
        ValueRule::Keyid => is_keyid_of(document, text),
        ValueRule::Tag => are_string_bytes(text.as_bytes()),
        ValueRule::Digest => SignDigest::of_word(text.as_bytes()).is_some(),
        ValueRule::Expires => expires_of_word(text.as_bytes()).is_some(),
        ValueRule::NonceUse => NonceUse::of_word(text.as_bytes()).is_some(),
        ValueRule::DigestUse => DigestUse::of_word(text.as_bytes()).is_some(),
        _ => true,
    }
}

// ---- numbers

fn is_within(least: u64, most: u64, number: i64) -> bool
    ensures { result ≡ is_within least most number }
{
    number >= 0 && least <= number as u64 && number as u64 <= most
}

fn is_integer_allowed(rule: ValueRule, number: i64) -> bool
    ensures { result ≡ is_integer_allowed rule number }
{
    match rule {
        ValueRule::Version => is_within(1, 2, number),
        ValueRule::Seconds => is_within(1, MAX_EXPIRES_AFTER, number),
        ValueRule::MaxAge => is_within(1, DAY_WINDOW, number),
        ValueRule::LongMaxAge => is_within(1, MAX_AGE, number),
        ValueRule::Skew => is_within(0, MAX_SKEW, number),
        ValueRule::Nonces => is_within(1, MAX_ENTRIES as u64, number),
        _ => true,
    }
}

// ---- tables and arrays

fn is_table_allowed(rule: ValueRule, table: &Table) -> bool
    ensures { result ≡ is_table_allowed rule (table_view table.now) }
{
    match rule {
        ValueRule::Keys => are_entries(EntryTest::HasKeyid, table),
        ValueRule::Types => are_entries(EntryTest::HasKind, table),
        _ => true,
    }
}

fn is_policy_count(count: usize) -> bool
    ensures { result ≡ is_policy_count count }
{
    1 <= count && count <= MAX_POLICIES
}

fn is_array_allowed(rule: ValueRule, array: &Array) -> bool
    ensures { result ≡ is_array_allowed rule (array_view array.now) }
{
    match rule {
        ValueRule::Steps => array.len() <= MAX_SCRIPT_LINES,
        // few tables are compared with each other
        ValueRule::Policies => {
            is_policy_count(array.len()) && have_distinct_tags(array.as_slice())
        }
        _ => true,
    }
}

// ---- values

/// Whether the value is one that the rule allows in this document, or of another type.
pub fn is_allowed(document: &Table, rule: ValueRule, value: &Value) -> bool
    ensures { result ≡ is_allowed (table_view document.now) rule (view value.now) }
{
    match value {
        Value::String(text) => is_text_allowed(document, rule, text.as_str()),
        Value::Integer(number) => is_integer_allowed(rule, *number),
        Value::Table(table) => is_table_allowed(rule, table),
        Value::Array(array) => is_array_allowed(rule, array),
        _ => true,
    }
}
