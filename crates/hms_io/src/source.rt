//! What gives bytes.

ghost use Rattle.std.specs.Prelude.{◌≡◌, ℕ, List, Option};
ghost use Rattle.std.specs.Io.{ReadsAtMost};
ghost use Rattle.std.specs.Io.KnownBytes.{ReadConsumes};
ghost use Rattle.hms_io.specs.Cause.{HasCause};
ghost use Rattle.hms_io.specs.Idle.{idle_after};
ghost use Rattle.hms_io.specs.Reading.{calls_from_end, given_after, reports_end};

use crate::faults::Failed;

/// What gives bytes.
///
/// Its count of faults never falls. It rises where a call answers `Failed` (or stays at its last
/// value, 2^64 - 1), and every other answer leaves it as it was. The bytes left may be unknown, as
/// those of a terminal are, and then only the clauses on counts and lengths say anything.
pub trait Source {
    // The bytes left, where they are known.
    ghost left: { Self → Option (List ℕ) };

    // How many bytes were given, up to 2^64 - 1.
    ghost given: { Self → ℕ };

    // How many faults were counted.
    ghost faults: { Self → ℕ };

    // How many calls were made from the one on that reported the end, up to 2^64 - 1.
    ghost ended: { Self → ℕ };

    // How many reads gave no byte, up to 2^64 - 1.
    ghost idle: { Self → ℕ };

    /// Gives bytes at the start of the piece, and answers how many. 0 for a piece that isn't empty
    /// means the end. A failed call gives none, but may have changed the piece.
    fn read(&mut self, into: &mut [u8]) -> Result<usize, Failed>
        ensures bound { ReadsAtMost result into.new }
        ensures bytes { ReadConsumes (left self.old) (left self.new) result into.new }
        ensures given { given self.new ≡ given_after (given self.old) result }
        ensures cause { HasCause (faults self.old) (faults self.new) result }
        ensures ended { ended self.new ≡
            calls_from_end (ended self.old) (reports_end result into.new) }
        ensures idle { idle self.new ≡ idle_after (idle self.old) result };
}
