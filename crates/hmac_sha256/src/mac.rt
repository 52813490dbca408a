//! HMAC over pieces.

ghost use Rattle.std.specs.Prelude.{◌≡◌, ◌++◌, ℕ, List, []};
ghost use Rattle.sha2.specs.Hashers.{Holds256};
ghost use Rattle.hmac_sha256.specs.Hmac.{hmac, key_block, xor_each};
ghost use Rattle.hmac_sha256.specs.State.{HasAbsorbed, HasText};

use crate::key::{BLOCK_SIZE, IPAD, OPAD, key_block, xor_each};
use sfv_text::Absorb;
use sha2::{Digest, Sha256};
use std::marker::Model;

/// SHA-256 of the block under the pad, and of what is still to come.
fn under_pad(block: &[u8; BLOCK_SIZE], pad: u8) -> Sha256
    ensures { Holds256 result (xor_each pad block.now) }
{
    let mut hasher = Sha256::new();
    hasher.update(&xor_each(block, pad));
    hasher
}

fn copy_of(hasher: &Sha256) -> Sha256
    ensures { result ≡ hasher.now }
{
    match hasher.clone() {
        Ok(copy) => copy,
        Err(_) => unreachable!(),
    }
}

/// The HMAC of a text that comes in pieces (RFC 2104 section 2), with SHA-256.
///
/// Its meaning is the list that it has absorbed: the key as a block, and then the text. It has no
/// `Debug`, so no key is printed.
#[derive(Drop)]
pub struct Hmac {
    // It was given the key XOR ipad, and then the text.
    inner: Sha256,
    // It was given the key XOR opad.
    outer: Sha256,
}

impl Model for Hmac {
    ghost use Rattle.hmac_sha256.specs.State.{HmacState};

    ghost Value = { HmacState };

    ghost view = { λ h. record { inner = h.inner; outer = h.outer } };
}

impl Hmac {
    /// The HMAC under this key, of no text yet. A key may have any length; RFC 2104 section 3
    /// advises against fewer than 32 bytes.
    pub fn new(key: &[u8]) -> Hmac
        ensures text { HasText result key.now [] }
        ensures absorbed { HasAbsorbed result (key_block key.now) }
    {
        let block = key_block(key);
        Hmac {
            inner: under_pad(&block, IPAD),
            outer: under_pad(&block, OPAD),
        }
    }

    /// An equal one of its own.
    pub(crate) fn copy(&self) -> Hmac
        ensures { result ≡ self.now }
    {
        Hmac {
            inner: copy_of(&self.inner),
            outer: copy_of(&self.outer),
        }
    }

    /// Adds the piece at the end of the text.
    pub fn update(&mut self, piece: &[u8])
        ensures text { (key text : List ℕ) → HasText self.old key text
            → HasText self.new key (text ++ piece.now) }
        ensures absorbed { (before : List ℕ) → HasAbsorbed self.old before
            → HasAbsorbed self.new (before ++ piece.now) }
    {
        self.inner.update(piece);
    }

    /// The tag of the text, however it was cut.
    pub fn finish(self) -> [u8; 32]
        ensures text { (key text : List ℕ) → HasText self key text → result ≡ hmac key text }
        ensures absorbed { (key text : List ℕ) → HasAbsorbed self (key_block key ++ text)
            → result ≡ hmac key text }
    {
        let inner = self.inner.finalize();
        let mut outer = self.outer;
        outer.update(&inner);
        outer.finalize()
    }
}

impl Absorb for Hmac {
    ghost use Rattle.hmac_sha256.specs.State.{HasAbsorbed};

    ghost absorbed = { HasAbsorbed };

    fn absorb(&mut self, piece: &[u8]) {
        self.update(piece);
    }
}
