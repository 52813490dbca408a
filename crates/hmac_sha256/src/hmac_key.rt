//! Keys whose pads are hashed.

ghost use Rattle.std.specs.Prelude.{◌≡◌, [], IfOk};
ghost use Rattle.hmac_sha256.specs.Hmac.{key_block};
ghost use Rattle.hmac_sha256.specs.State.{HasAbsorbed, HasText};

use crate::mac::Hmac;
use sfv_text::{Memory, Text};
use std::alloc::Global;
use std::marker::Model;

/// A key of HMAC whose two pads were hashed, so that this is done once for all texts (RFC 2104
/// section 4). A contract sees its bytes. It has no `Debug`, so it isn't printed.
#[derive(Drop)]
pub struct HmacKey {
    key: Text,
    /// The HMAC under the key, of no text yet.
    empty: Hmac,
}

impl Model for HmacKey {
    ghost use Rattle.std.specs.Prelude.{ℕ, List, []};
    ghost use Rattle.hmac_sha256.specs.State.{HasText};

    ghost Value = { List ℕ };

    ghost view = { λ k. k.key };

    ghost invariant = { λ k. HasText k.empty k.key [] };
}

impl HmacKey {
    /// The key of these bytes.
    pub fn of(alloc: Global, key: &[u8]) -> Result<HmacKey, Memory>
        ensures { IfOk result (λ k. k ≡ key.now) }
    {
        Ok(HmacKey {
            key: Text::from_bytes(alloc, key)?,
            empty: Hmac::new(key),
        })
    }

    /// An equal one of its own.
    pub fn copy(&self, alloc: Global) -> Result<HmacKey, Memory>
        ensures { IfOk result (λ k. k ≡ self.now) }
    {
        Ok(HmacKey {
            key: self.key.copy(alloc)?,
            empty: self.empty.copy(),
        })
    }

    /// Its bytes.
    pub fn bytes(&self) -> &[u8]
        ensures { result.now ≡ self.now }
    {
        self.key.bytes()
    }

    /// The HMAC under the key, of no text yet.
    pub fn hmac(&self) -> Hmac
        ensures text { HasText result self.now [] }
        ensures absorbed { HasAbsorbed result (key_block self.now) }
    {
        self.empty.copy()
    }
}
