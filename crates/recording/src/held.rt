//! Bytes that were given and not yet used.

ghost use Rattle.std.specs.Prelude.{◌≡◌, ◌≤◌, drop, vec_len};

use sfv_text::Memory;
use std::alloc::Global;
use std::marker::Model;

/// Bytes that come at the end and are used from the beginning. Those that were used are kept until
/// more come. A contract sees all that are kept, and those of them that aren't used.
#[derive(Drop)]
pub(crate) struct HeldBytes {
    bytes: Vec<u8>,
    // How many of the bytes were used.
    used: usize,
}

impl Model for HeldBytes {
    ghost use Rattle.std.specs.Prelude.{◌≤◌, drop, vec_len};
    ghost use Rattle.recording.specs.tools.KeptBytes.{KeptBytes};

    ghost Value = { KeptBytes };

    ghost view = { λ h. record { all = h.bytes.items; unused = drop h.used h.bytes.items } };

    ghost invariant = { λ h. h.used ≤ vec_len h.bytes };
}

/// Removes so many bytes at the beginning, without the work of a `drain`.
fn remove_front(bytes: &mut Vec<u8>, count: usize)
    requires { count ≤ vec_len bytes.old }
    ensures { bytes.new.items ≡ drop count bytes.old.items }
{
    let len = bytes.len();
    bytes.copy_within(count..len, 0);
    bytes.truncate(len - count);
}

impl HeldBytes {
    ghost use Rattle.std.specs.Prelude.{◌≡◌, ◌≤◌, ◌++◌, [], drop, length, OnErr, OnOk};

    /// No bytes. It takes no memory.
    pub(crate) fn new(alloc: Global) -> HeldBytes
        ensures { result ≡ record { all = []; unused = [] } }
    {
        HeldBytes {
            bytes: Vec::new(alloc),
            used: 0,
        }
    }

    /// The bytes that aren't used.
    pub(crate) fn as_slice(&self) -> &[u8]
        ensures { result.now ≡ self.now.unused }
    {
        self.bytes.as_slice().split_at(self.used).1
    }

    /// Uses so many bytes, which are kept.
    pub(crate) fn use_up(&mut self, count: usize)
        requires { count ≤ length self.old.unused }
        ensures { self.new ≡ record self.old { unused = drop count self.old.unused } }
    {
        self.used += count;
    }

    /// Adds the piece, in the room of what was used, which is kept no longer: each byte is moved
    /// once a piece at most.
    pub(crate) fn append(&mut self, piece: &[u8]) -> Result<(), Memory>
        ensures ok { OnOk result (self.new ≡ record {
          all = self.old.unused ++ piece.now;
          unused = self.old.unused ++ piece.now;
        }) }
        ensures err { OnErr result (self.new ≡ record self.old { all = self.old.unused }) }
    {
        if self.used > 0 {
            remove_front(&mut self.bytes, self.used);
            self.used = 0;
        }
        self.bytes.extend_from_slice(piece)?;
        Ok(())
    }
}
