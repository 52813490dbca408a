//! Values by their names.

ghost use Rattle.std.specs.Prelude.{◌≡◌, Some, is_some, option_and_then, option_copied, option_map};
ghost use Rattle.toml.specs.Data.{as_array, as_str, as_table, get_member};
ghost use Rattle.toml.specs.View.{array_view, table_view, view};
ghost use Rattle.conf_values.specs.Parts.{members_in};
ghost use Rattle.conf_values.specs.Values.{number_or};
ghost use Rattle.conf_values.specs.Views.{table_members};

use toml::value::Array;
use toml::{Table, Value};

/// The value of that name in the table.
pub fn member<'d>(table: &'d Table, name: &str) -> Option<&'d Value>
    ensures { option_map (λ value. view value.now) result
        ≡ get_member name.now (table_view table.now) }
{
    table.get(name)
}

/// The table of that name in the table.
pub fn table_in<'d>(table: &'d Table, name: &str) -> Option<&'d Table>
    ensures found { option_map (λ inner. table_view inner.now) result
        ≡ option_and_then as_table (get_member name.now (table_view table.now)) }
    ensures members { table_members result
        ≡ members_in (get_member name.now (table_view table.now)) }
    ensures there { is_some result
        ≡ is_some (option_and_then as_table (get_member name.now (table_view table.now))) }
{
    match member(table, name) {
        None => None,
        Some(value) => value.as_table(),
    }
}

/// The text of that name in the table.
pub fn text_in<'d>(table: &'d Table, name: &str) -> Option<&'d str>
    ensures { option_copied result
        ≡ option_and_then as_str (get_member name.now (table_view table.now)) }
{
    match member(table, name) {
        None => None,
        Some(value) => value.as_str(),
    }
}

/// The array of that name in the table.
pub fn array_in<'d>(table: &'d Table, name: &str) -> Option<&'d Array>
    ensures { option_map (λ array. array_view array.now) result
        ≡ option_and_then as_array (get_member name.now (table_view table.now)) }
{
    match member(table, name) {
        None => None,
        Some(value) => value.as_array(),
    }
}

/// The value of that name in the table, where there is one.
pub fn member_of<'d>(table: Option<&'d Table>, name: &str) -> Option<&'d Value>
    ensures { option_map (λ value. view value.now) result
        ≡ get_member name.now (table_members table.entry) }
{
    match table {
        None => None,
        Some(table) => member(table, name),
    }
}

/// The text of that name in the table, where there is one.
pub fn text_of<'d>(table: Option<&'d Table>, name: &str) -> Option<&'d str>
    ensures { option_copied result
        ≡ option_and_then as_str (get_member name.now (table_members table.entry)) }
{
    match member_of(table, name) {
        None => None,
        Some(value) => value.as_str(),
    }
}

fn number_of(value: &Value, other: u64) -> u64
    ensures { result ≡ number_or other (Some (view value.now)) }
{
    match value.as_integer() {
        None => other,
        Some(number) if number >= 0 => number as u64,
        Some(_) => 0,
    }
}

/// The number of that name in the table, where there is one, or else the other. A negative one
/// counts as 0.
pub fn number_in(table: Option<&Table>, name: &str, other: u64) -> u64
    ensures { result ≡ number_or other (get_member name.now (table_members table.entry)) }
{
    match member_of(table, name) {
        None => other,
        Some(value) => number_of(value, other),
    }
}
