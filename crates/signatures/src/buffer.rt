//! What takes in a text that is fed twice: a count of its bytes, and then a buffer of that size.

ghost use Rattle.std.specs.Prelude.{◌≡◌, ◌≤◌, ◌<◌, ◌^◌, length, vec_len};

use sfv_text::{Absorb, Memory, Text};
use std::alloc::Global;

/// How many bytes were absorbed, or the most that a `usize` holds.
#[derive(Drop)]
pub struct ByteCount {
    count: usize,
}

impl ByteCount {
    ghost use Rattle.std.specs.Prelude.{◌≡◌, [], ℕ, ◌-◌, ◌^◌, List, min, length};
    ghost use Rattle.signatures.specs.tools.Feed.{IsCounted};

    /// No bytes yet.
    pub fn new() -> ByteCount
        ensures { IsCounted result [] }
    {
        ByteCount { count: 0 }
    }

    /// How many there were.
    pub fn total(&self) -> usize
        ensures { (text : List ℕ) → IsCounted self.now text
            → result ≡ min (length text) (2 ^ 64 - 1) }
    {
        self.count
    }
}

impl Absorb for ByteCount {
    ghost use Rattle.signatures.specs.tools.Feed.{IsCounted};

    ghost absorbed = { λ c text. IsCounted c text };

    fn absorb(&mut self, piece: &[u8]) {
        self.count = self.count.saturating_add(piece.len());
    }
}

/// A buffer of a fixed size that is being filled.
#[derive(Drop)]
pub struct ByteBuffer {
    bytes: Vec<u8>,
    at: usize,
    over: bool,
    ghost in_range: { at ≤ vec_len bytes },
}

impl ByteBuffer {
    ghost use Rattle.std.specs.Prelude.{◌≡◌, [], ℕ, List, length, IfOk, IsOk};
    ghost use Rattle.signatures.specs.tools.Feed.{IsFilled, buffer_size};

    /// A buffer of this many bytes.
    pub fn new(alloc: Global, size: usize) -> Result<ByteBuffer, Memory>
        ensures empty { IfOk result (λ f. IsFilled f []) }
        ensures size { IfOk result (λ f. buffer_size f ≡ size) }
    {
        let bytes = vec![in alloc; 0u8; size]?;
        Ok(ByteBuffer {
            bytes,
            at: 0,
            over: false,
        })
    }

    /// What was absorbed, where it has just the size. Another length is answered as out of memory:
    /// a text that was counted first has another length only where it has more bytes than a
    /// `usize` counts.
    pub fn finish(self) -> Result<Text, Memory>
        ensures is { (text : List ℕ) → IsFilled self text → IfOk result (λ bytes. bytes ≡ text) }
        ensures whole { (text : List ℕ) → IsFilled self text → length text ≡ buffer_size self
            → IsOk result }
    {
        if self.over || self.at != self.bytes.len() {
            return Err(Memory);
        }
        Ok(Text::from_vec(self.bytes))
    }
}

impl Absorb for ByteBuffer {
    ghost use Rattle.signatures.specs.tools.Feed.{IsFilled};

    ghost absorbed = { λ f text. IsFilled f text };

    fn absorb(&mut self, piece: &[u8]) {
        if self.over || self.bytes.len() - self.at < piece.len() {
            self.over = true;
            return;
        }
        let end = self.at + piece.len();
        self.bytes[self.at..end].copy_from_slice(piece);
        self.at = end;
    }
}
