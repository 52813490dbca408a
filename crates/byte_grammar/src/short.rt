//! A few bytes, held in place.

use std::marker::Model;

/// So many bytes are held in place, with no allocation: names, keys and labels mostly are.
pub const IN_PLACE: usize = 38;

/// At most that many bytes. A contract sees their list.
#[derive(Debug, Drop)]
pub(crate) struct Short {
    buffer: [u8; IN_PLACE],
    count: u8,
}

impl Model for Short {
    ghost use Rattle.std.specs.Prelude.{ℕ, ◌≤◌, List, take};

    ghost Value = { List ℕ };

    ghost view = { λ s. take s.count s.buffer };

    ghost invariant = { λ s. s.count ≤ 38 };
}

impl Short {
    ghost use Rattle.std.specs.Prelude.{◌≡◌, ◌≤◌, ◌↔◌, ◌++◌, ◌+◌, [], length, IsTrue};

    /// No bytes.
    pub(crate) fn new() -> Short
        ensures { result ≡ [] }
    {
        Short {
            buffer: [0; IN_PLACE],
            count: 0,
        }
    }

    /// The bytes, in order.
    pub(crate) fn bytes(&self) -> &[u8]
        ensures is { result.now ≡ self.now }
        ensures short { length self.now ≤ IN_PLACE }
    {
        &self.buffer[..self.count as usize]
    }

    /// The same bytes.
    pub(crate) fn copy(&self) -> Short
        ensures { result ≡ self.now }
    {
        Short {
            buffer: self.buffer,
            count: self.count,
        }
    }

    /// Whether the piece fits after the bytes.
    pub(crate) fn fits(&self, piece: &[u8]) -> bool
        ensures { IsTrue result ↔ (length self.now + length piece.now ≤ IN_PLACE) }
    {
        piece.len() <= IN_PLACE - self.count as usize
    }

    /// Adds the piece at the end.
    pub(crate) fn append(&mut self, piece: &[u8])
        requires { length self.old + length piece.now ≤ IN_PLACE }
        ensures { self.new ≡ self.old ++ piece.now }
    {
        let begin = self.count as usize;
        let end = begin + piece.len();
        self.buffer[begin..end].copy_from_slice(piece);
        self.count = end as u8;
    }
}
