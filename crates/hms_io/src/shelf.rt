//! What keeps files under names.

ghost use Rattle.std.specs.Prelude.{◌≡◌, ◌+◌, ◌≤◌, ℕ, Option, length, IfOk, IfSome, IsErrOf, MatchResult};
ghost use Rattle.hms_io.specs.Cause.{HasFillCause, one_more};
ghost use Rattle.hms_io.specs.Files.{CountsFile, FileMap, GivesFile, HasLongerFile, KeepsFiles};

use crate::read_write::{FillError, MAX_LIMIT};
use sfv_text::Text;
use std::alloc::Global;

/// What keeps files under names. Its count of faults is as that of a [`Source`](crate::Source), and
/// the files may be unknown.
pub trait Shelf {
    // The files, where they are known.
    ghost files: { Self → Option FileMap };

    // How many faults were counted.
    ghost faults: { Self → ℕ };

    // How many files were asked for, up to 2^64 - 1.
    ghost asked: { Self → ℕ };

    // How many bytes of files were read, up to 2^64 - 1.
    ghost reached: { Self → ℕ };

    /// Gives the named file whole, or `None` where there is no such file, which is no fault. At
    /// most `limit + 1` bytes are read of it. The files stay as they are.
    fn fetch(&mut self, alloc: Global, name: &str, limit: usize) -> Result<Option<Text>, FillError>
        requires { limit ≤ MAX_LIMIT }
        ensures whole { IfOk result (GivesFile (files self.old) name.now) }
        ensures within { IfOk result (λ found. IfSome found (λ text. length text ≤ limit)) }
        ensures too_long { IsErrOf result FillError.TooLong →
            HasLongerFile (files self.old) name.now limit }
        ensures same_files { KeepsFiles (files self.old) (files self.new) }
        ensures later { faults self.old ≤ faults self.new }
        ensures cause { MatchResult result (λ _. faults self.new ≡ faults self.old)
            (HasFillCause (faults self.old) (faults self.new)) }
        ensures asked { asked self.new ≡ one_more (asked self.old) }
        ensures reached { reached self.new ≤ reached self.old + (limit + 1) }
        ensures counts { IfOk result (CountsFile (reached self.old) (reached self.new)) };
}
