//! An entry of a book.

ghost use Rattle.std.specs.Prelude.{◌≡◌, ◌≤◌, length};
ghost use Rattle.nonces.specs.Books.{is_of};
ghost use Rattle.nonces.specs.declared.limits.TheConstants.{MAX_KEYID_BYTES, MAX_NONCE_BYTES};

use crate::limits::{MAX_KEYID_BYTES, MAX_NONCE_BYTES};
use crate::short::Short;
use std::marker::Model;

/// The keyid and the nonce of an accepted signature, and the last moment at which it would be
/// accepted again.
#[derive(Drop)]
pub struct Entry {
    keyid: Short<MAX_KEYID_BYTES>,
    nonce: Short<MAX_NONCE_BYTES>,
    until: u64,
}

impl Model for Entry {
    ghost use Rattle.nonces.specs.Books.{Entry};

    ghost Value = { Entry };

    ghost view = { λ e. record { keyid = e.keyid; nonce = e.nonce; until = e.until } };
}

impl Entry {
    pub fn new(keyid: &[u8], nonce: &[u8], until: u64) -> Entry
        requires keyid { length keyid.now ≤ MAX_KEYID_BYTES }
        requires nonce { length nonce.now ≤ MAX_NONCE_BYTES }
        ensures { result ≡ record { keyid = keyid.now; nonce = nonce.now; until = until } }
    {
        Entry {
            keyid: Short::from_bytes(keyid),
            nonce: Short::from_bytes(nonce),
            until,
        }
    }

    /// Its keyid.
    pub fn keyid(&self) -> &[u8]
        ensures { result.now ≡ self.now.keyid }
    {
        self.keyid.as_slice()
    }

    /// Its nonce.
    pub fn nonce(&self) -> &[u8]
        ensures { result.now ≡ self.now.nonce }
    {
        self.nonce.as_slice()
    }

    /// The last moment at which it lives.
    pub fn until(&self) -> u64
        ensures { result ≡ self.now.until }
    {
        self.until
    }

    /// Whether it has this keyid and this nonce.
    pub fn is_of(&self, keyid: &[u8], nonce: &[u8]) -> bool
        ensures { result ≡ is_of keyid.now nonce.now self.now }
    {
        self.keyid.as_slice() == keyid && self.nonce.as_slice() == nonce
    }
}
