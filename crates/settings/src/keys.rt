//! Keys by their keyids.

ghost use Rattle.std.specs.Prelude.{◌≡◌, OnOk, OnErr, option_copied};
ghost use Rattle.std.specs.FinMap as map;

use hmac_sha256::HmacKey;
use sfv_text::Memory;
use std::alloc::Global;
use std::collections::BTreeMap;
use std::marker::Model;

/// Keys by their keyids. A contract sees them as a finite map.
///
/// They have no `Debug`, since that would print them.
#[derive(Drop)]
pub struct Keys {
    keys: BTreeMap<Vec<u8>, HmacKey>,
    alloc: Global,
}

impl Model for Keys {
    ghost use Rattle.std.specs.FinMap as map;
    ghost use Rattle.settings.specs.Keys.{KeyMap};
    ghost use Rattle.settings.specs.tools.KeyEntries.{keys_code, by_keyid};

    ghost Value = { KeyMap };

    ghost coded = { keys_code };

    ghost view = { λ k. map.from_entries (by_keyid k.keys.entries) };
}

impl Keys {
    /// No keys. It takes no memory.
    pub fn new(alloc: Global) -> Keys
        ensures { result ≡ map.empty }
    {
        Keys {
            keys: BTreeMap::new(alloc),
            alloc,
        }
    }

    /// Gives the keyid this key, in place of an earlier one.
    pub fn add(&mut self, keyid: &[u8], key: &[u8]) -> Result<(), Memory>
        ensures ok { OnOk result (self.new ≡ map.insert self.old keyid.now key.now) }
        ensures err { OnErr result (self.new ≡ self.old) }
    {
        let mut name = Vec::new(self.alloc);
        name.extend_from_slice(keyid)?;
        let key = HmacKey::of(self.alloc, key)?;
        self.keys.insert(name, key)?;
        Ok(())
    }

    /// The key of the keyid. It takes no memory.
    pub fn get(&self, keyid: &[u8]) -> Option<&HmacKey>
        ensures { option_copied result ≡ map.get self.now keyid.now }
    {
        self.keys.get(keyid)
    }
}
