//! Bytes in place.

ghost use Rattle.std.specs.Prelude.{◌≡◌, ◌≤◌, length};

use std::marker::Model;

/// At most `N` bytes, which take no memory of their own. A contract sees them as a list.
#[derive(Drop)]
pub struct Short<const N: usize> {
    // The bytes, and zero bytes up to N.
    bytes: [u8; N],
    len: usize,
}

impl<const N: usize> Model for Short<N> {
    ghost use Rattle.std.specs.Prelude.{ℕ, ◌≤◌, List, take};

    ghost Value = { List ℕ };

    ghost view = { λ s. take s.len s.bytes };

    ghost invariant = { λ s. s.len ≤ N };
}

impl<const N: usize> Short<N> {
    /// These bytes.
    pub fn from_bytes(bytes: &[u8]) -> Short<N>
        requires { length bytes.now ≤ N }
        ensures { result ≡ bytes.now }
    {
        let mut array = [0; N];
        array[..bytes.len()].copy_from_slice(bytes);
        Short {
            bytes: array,
            len: bytes.len(),
        }
    }

    /// The bytes, in order.
    pub fn as_slice(&self) -> &[u8]
        ensures { result.now ≡ self.now }
    {
        &self.bytes[..self.len]
    }
}
