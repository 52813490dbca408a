//! The kinds of fields that a document gives.

ghost use Rattle.std.specs.Prelude.{◌≡◌, IfOk, OnOk, codes};
ghost use Rattle.toml.specs.Data.{get_member};
ghost use Rattle.toml.specs.View.{table_view, view};
ghost use Rattle.component_ids.specs.Types.{standard_types};
ghost use Rattle.conf.specs.Table.{members_in};
ghost use Rattle.conf.specs.tools.Added.{all_added, named_kind, with_entry, HasDistinctNames};

use component_ids::{FieldKind, Types};
use conf_values::table_in;
use settings::kind_of_word;
use sfv_text::Memory;
use std::alloc::Global;
use toml::{Table, Value};

/// The kind that the value names.
fn named_kind(value: &Value) -> Option<FieldKind>
    ensures { result ≡ named_kind (view value.now) }
{
    match value.as_str() {
        None => None,
        Some(word) => kind_of_word(word.as_bytes()),
    }
}

/// Adds the kind of an entry, where it names one.
fn add_entry(types: &mut Types, name: &str, value: &Value) -> Result<(), Memory>
    ensures { OnOk result (types.new ≡ with_entry named_kind types.old name.now (view value.now)) }
{
    match named_kind(value) {
        None => Ok(()),
        Some(kind) => types.add(name.as_bytes(), kind),
    }
}

fn types_in(alloc: Global, table: &Table) -> Result<Types, Memory>
    ensures ok { IfOk result
        (λ types. types ≡ all_added named_kind standard_types (table_view table.now)) }
    ensures distinct { IfOk result (λ _. HasDistinctNames (table_view table.now)) }
{
    let mut types = Types::standard(alloc)?;
    for (name, value) in table.iter() {
        add_entry(&mut types, name.as_str(), value)?;
    }
    Ok(types)
}

/// The standard types with those of the document.
pub(crate) fn read_types(alloc: Global, document: &Table) -> Result<Types, Memory>
    ensures ok { IfOk result (λ types. types ≡ all_added named_kind standard_types
        (members_in (get_member (codes "types") (table_view document.now)))) }
    ensures distinct { IfOk result (λ _. HasDistinctNames
        (members_in (get_member (codes "types") (table_view document.now)))) }
{
    match table_in(document, "types") {
        None => Types::standard(alloc),
        Some(table) => types_in(alloc, table),
    }
}
