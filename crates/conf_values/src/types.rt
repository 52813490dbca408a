//! Which type a value has.

ghost use Rattle.std.specs.Prelude.{◌≡◌};
ghost use Rattle.toml.specs.View.{array_view, view};
ghost use Rattle.conf_values.specs.Values.{are_strings, are_tables, are_texts, has_type, is_table_array, is_text_array};

use crate::entries::{EntryTest, are_entries};
use crate::table::ValueRule;
use toml::Value;
use toml::value::Array;

fn are_strings(value: &Value) -> bool
    ensures { result ≡ are_strings (view value.now) }
{
    match value.as_table() {
        None => false,
        Some(table) => are_entries(EntryTest::HasText, table),
    }
}

/// Whether each value of the array is a text.
fn are_texts(array: &Array) -> bool
    ensures { result ≡ are_texts (array_view array.now) }
{
    for value in array {
        if !value.is_str() {
            return false;
        }
    }
    true
}

fn is_text_array(value: &Value) -> bool
    ensures { result ≡ is_text_array (view value.now) }
{
    match value.as_array() {
        None => false,
        Some(array) => are_texts(array),
    }
}

/// Whether each value of the array is a table.
fn are_tables(array: &Array) -> bool
    ensures { result ≡ are_tables (array_view array.now) }
{
    for value in array {
        if !value.is_table() {
            return false;
        }
    }
    true
}

fn is_table_array(value: &Value) -> bool
    ensures { result ≡ is_table_array (view value.now) }
{
    match value.as_array() {
        None => false,
        Some(array) => are_tables(array),
    }
}

/// Whether the value has the type that the rule asks for.
pub fn has_type(rule: ValueRule, value: &Value) -> bool
    ensures { result ≡ has_type rule (view value.now) }
{
    match rule {
        ValueRule::Version
        | ValueRule::Seconds
        | ValueRule::MaxAge
        | ValueRule::LongMaxAge
        | ValueRule::Skew
        | ValueRule::Nonces => { value.is_integer() }
        ValueRule::Flag => value.is_bool(),
        ValueRule::Table => value.is_table(),
        ValueRule::Keys | ValueRule::Types => are_strings(value),
        ValueRule::Steps => is_text_array(value),
        ValueRule::Policies => is_table_array(value),
        _ => value.is_str(),
    }
}
