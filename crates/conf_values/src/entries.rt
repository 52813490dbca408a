//! The entries of tables whose keys aren't fixed: of `keys` and of `types`.

ghost use Rattle.std.specs.Prelude.{◌≡◌, is_some, codes, if◌then◌else◌};
ghost use Rattle.std.specs.List.{list_all};
ghost use Rattle.std.specs.Str.{bytes_eq};
ghost use Rattle.toml.specs.View.{table_view, view};
ghost use Rattle.settings.specs.Words.{kind_of_word};
ghost use Rattle.conf_values.specs.Parts.{entries_of};
ghost use Rattle.conf_values.specs.Values.{is_standard_field, is_type};
ghost use Rattle.conf_values.specs.tools.Entries.{passes};

use byte_grammar::{is_field_name, is_listed};
use settings::{is_keyid, kind_of_word};
use toml::{Table, Value};

const STANDARD_NAMES: [&[u8]; 4] = [
    b"signature-input",
    b"signature",
    b"accept-signature",
    b"content-digest",
];

/// Whether the field is structured by its own standard, as `Types::standard` has it.
fn is_standard_field(name: &[u8]) -> bool
    ensures { result ≡ is_standard_field name.now }
{
    is_listed(&STANDARD_NAMES, name)
}

fn is_kind_for(name: &[u8], word: &[u8]) -> bool
    ensures { result ≡ (if is_standard_field name.now
        then bytes_eq word.now (codes "dictionary") else is_some (kind_of_word word.now)) }
{
    if is_standard_field(name) {
        word == b"dictionary".as_slice()
    } else {
        kind_of_word(word).is_some()
    }
}

fn is_type(name: &[u8], value: &Value) -> bool
    ensures { result ≡ is_type name.now (view value.now) }
{
    match value.as_str() {
        None => true,
        Some(word) => is_field_name(name) && is_kind_for(name, word.as_bytes()),
    }
}

/// What is asked of each entry of a table.
#[derive(Clone, Copy)]
pub(crate) enum EntryTest {
    /// Its value is a text.
    HasText,
    /// Its key is a keyid.
    HasKeyid,
    /// Its key is a field name, and its value a kind of such a field.
    HasKind,
}

fn passes(test: EntryTest, key: &str, value: &Value) -> bool
    ensures { result ≡ passes test (key.now, view value.now) }
{
    match test {
        EntryTest::HasText => value.is_str(),
        EntryTest::HasKeyid => is_keyid(key.as_bytes()),
        EntryTest::HasKind => is_type(key.as_bytes(), value),
    }
}

/// Whether each entry of the table passes the test.
pub(crate) fn are_entries(test: EntryTest, table: &Table) -> bool
    ensures { result ≡ list_all (passes test) (entries_of (table_view table.now)) }
{
    for (key, value) in table.iter() {
        if !passes(test, key.as_str(), value) {
            return false;
        }
    }
    true
}
