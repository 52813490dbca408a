//! The keys of a document.

ghost use Rattle.std.specs.Prelude.{◌≡◌, IfErr, IfOk, OnOk, option_map, codes, IsTrue};
ghost use Rattle.std.specs.FinMap as map;
ghost use Rattle.toml.specs.Data.{string, get_member};
ghost use Rattle.toml.specs.View.{table_view, view};
ghost use Rattle.conf.specs.Table.{members_in};
ghost use Rattle.conf.specs.tools.Added.{all_added, is_key_length, key_in, spell_keys, spells_key, with_entry, HasDistinctNames};
ghost use Rattle.conf.specs.tools.KeyFaults.{IsKeyFault, IsKeysFault};

use crate::fault::ConfFault;
use base64::DecodeAllocError;
use base64::engine::general_purpose::STANDARD;
use conf_values::table_in;
use settings::{Keys, MAX_KEY_BYTES};
use sfv_text::{Memory, Text};
use std::alloc::Global;
use toml::{Table, Value};

fn is_key_length(bytes: &[u8]) -> bool
    ensures { result ≡ is_key_length bytes.now }
{
    1 <= bytes.len() && bytes.len() <= MAX_KEY_BYTES
}

/// The key that the text spells, where it is one (RFC 4648 section 4).
fn decode_key(alloc: Global, text: &[u8]) -> Result<Option<Vec<u8>>, Memory>
    ensures { IfOk result (λ o. option_map (λ v. v.items) o ≡ key_in (string text.now)) }
{
    match STANDARD.decode(alloc, text) {
        Ok(bytes) => {
            if is_key_length(bytes.as_slice()) {
                Ok(Some(bytes))
            } else {
                Ok(None)
            }
        }
        Err(DecodeAllocError::OutOfMemory) => Err(Memory),
        Err(DecodeAllocError::DecodeError(_)) => Ok(None),
    }
}

/// Adds the key of an entry. A value that is no text is left out.
fn add_entry(alloc: Global, keys: &mut Keys, keyid: &str, value: &Value) -> Result<(), ConfFault>
    ensures ok { OnOk result (keys.new ≡ with_entry key_in keys.old keyid.now (view value.now)) }
    ensures spells { OnOk result (IsTrue (spells_key (view value.now))) }
    ensures err { IfErr result (IsKeyFault (view value.now)) }
{
    let Some(text) = value.as_str() else {
        return Ok(());
    };
    match decode_key(alloc, text.as_bytes())? {
        None => Err(ConfFault::BadKeyText(Text::from_bytes(alloc, b"keys")?)),
        Some(key) => Ok(keys.add(keyid.as_bytes(), key.as_slice())?),
    }
}

fn keys_in(alloc: Global, table: &Table) -> Result<Keys, ConfFault>
    ensures ok { IfOk result (λ keys. keys ≡ all_added key_in map.empty (table_view table.now)) }
    ensures spell { IfOk result (λ _. IsTrue (spell_keys (table_view table.now))) }
    ensures distinct { HasDistinctNames (table_view table.now) }
    ensures err { IfErr result (IsKeysFault (table_view table.now)) }
{
    let mut keys = Keys::new(alloc);
    for (keyid, value) in table.iter() {
        add_entry(alloc, &mut keys, keyid.as_str(), value)?;
    }
    Ok(keys)
}

/// The keys of the document.
pub(crate) fn read_keys(alloc: Global, document: &Table) -> Result<Keys, ConfFault>
    ensures ok { IfOk result (λ keys. keys ≡ all_added key_in map.empty
        (members_in (get_member (codes "keys") (table_view document.now)))) }
    ensures spell { IfOk result (λ _. IsTrue (spell_keys
        (members_in (get_member (codes "keys") (table_view document.now))))) }
    ensures distinct { HasDistinctNames
        (members_in (get_member (codes "keys") (table_view document.now))) }
    ensures err { IfErr result
        (IsKeysFault (members_in (get_member (codes "keys") (table_view document.now)))) }
{
    match table_in(document, "keys") {
        None => Ok(Keys::new(alloc)),
        Some(table) => keys_in(alloc, table),
    }
}
