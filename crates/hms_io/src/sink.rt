//! What takes bytes.

ghost use Rattle.std.specs.Prelude.{◌≡◌, ℕ, List, Option, length, IfOk};
ghost use Rattle.std.specs.Io.{WritesAtMost};
ghost use Rattle.std.specs.Io.KnownBytes.{WriteAppends};
ghost use Rattle.hms_io.specs.Cause.{HasCause};
ghost use Rattle.hms_io.specs.Idle.{idle_after};

use crate::faults::Failed;

/// What takes bytes. Its count of faults is as that of a [`Source`](crate::Source), and the bytes
/// taken may be unknown.
pub trait Sink {
    // The bytes taken, where they are known.
    ghost taken: { Self → Option (List ℕ) };

    // How many faults were counted.
    ghost faults: { Self → ℕ };

    // How many writes took no byte, up to 2^64 - 1.
    ghost idle: { Self → ℕ };

    /// Takes bytes from the start of the piece, and answers how many. A sink that can take none of
    /// a piece that isn't empty fails. A failed call takes none.
    fn write(&mut self, piece: &[u8]) -> Result<usize, Failed>
        ensures bound { WritesAtMost result piece.now }
        ensures bytes { WriteAppends (taken self.old) (taken self.new) result piece.now }
        ensures some { IfOk result (λ n. n ≡ 0 → length piece.now ≡ 0) }
        ensures cause { HasCause (faults self.old) (faults self.new) result }
        ensures idle { idle self.new ≡ idle_after (idle self.old) result };
}
