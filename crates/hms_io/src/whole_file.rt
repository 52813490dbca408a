//! Whole files of a shelf.

ghost use Rattle.std.specs.Prelude.{◌≡◌, ◌+◌, ◌≤◌, length, IfOk, IsErrOf, MatchResult};
ghost use Rattle.hms_io.specs.Files.{HasFile, HasFileCause, HasLongerFile, HasNoFile, KeepsFiles};

use crate::read_write::{FillError, MAX_LIMIT};
use crate::shelf::Shelf;
use sfv_text::Text;
use std::alloc::Global;
use std::error::Error;
use std::fmt;

/// Why a file isn't taken.
#[derive(Clone, Copy, Debug, PartialEq, Eq)]
pub enum FileError {
    /// Out of memory.
    Memory,
    /// The fetch failed.
    Failed,
    /// The file has more bytes than the limit allows.
    TooLong,
    /// The shelf has no file of that name.
    Missing,
}

impl fmt::Display for FileError {
    ghost use Rattle.std.specs.Prelude.{Some};
    ghost use Rattle.hms_io.specs.Words.{file_error_text};

    ghost output = { λ it. Some (file_error_text it) };

    fn fmt<W: fmt::Write>(&self, f: &mut fmt::Formatter<W>) -> fmt::Result {
        f.write_str(match self {
            FileError::Memory => "out of memory",
            FileError::Failed => "a fetch failed",
            FileError::TooLong => "the file is longer than the limit",
            FileError::Missing => "the file is missing",
        })
    }
}

impl Error for FileError {}

impl From<FillError> for FileError {
    ghost use Rattle.std.specs.Prelude.{◌≡◌};
    ghost use Rattle.hms_io.specs.Files.{file_error_of};

    ghost from_gives = { λ error e. e ≡ file_error_of error };

    fn from(error: FillError) -> FileError {
        match error {
            FillError::Memory => FileError::Memory,
            FillError::Failed => FileError::Failed,
            FillError::TooLong => FileError::TooLong,
        }
    }
}

/// Takes the named file whole, by one fetch.
pub fn take_file<F: Shelf>(
    alloc: Global,
    shelf: &mut F,
    name: &str,
    limit: usize,
) -> Result<Text, FileError>
    requires { limit ≤ MAX_LIMIT }
    ensures whole { IfOk result (HasFile (F.files shelf.old) name.now) }
    ensures within { IfOk result (λ text. length text ≤ limit) }
    ensures too_long { IsErrOf result FileError.TooLong →
        HasLongerFile (F.files shelf.old) name.now limit }
    ensures missing { IsErrOf result FileError.Missing → HasNoFile (F.files shelf.old) name.now }
    ensures same_files { KeepsFiles (F.files shelf.old) (F.files shelf.new) }
    ensures later { F.faults shelf.old ≤ F.faults shelf.new }
    ensures asked { F.asked shelf.new ≤ F.asked shelf.old + 1 }
    ensures reached { F.reached shelf.new ≤ F.reached shelf.old + (limit + 1) }
    ensures cause { MatchResult result (λ _. F.faults shelf.new ≡ F.faults shelf.old)
        (HasFileCause (F.faults shelf.old) (F.faults shelf.new)) }
{
    match shelf.fetch(alloc, name, limit)? {
        Some(text) => Ok(text),
        None => Err(FileError::Missing),
    }
}
