//! A shelf over the files of the runtime.

ghost use Rattle.std.specs.Prelude.{◌≡◌, ◌≢◌, ◌+◌, ◌<◌, ◌≤◌, length, None, Some, Ok, Err, IfOk, IfErr, IfSome, OnOk, IsSome, IsErrOf, MatchResult};
ghost use Rattle.std.specs.IoError.{error_kind};
ghost use Rattle.hms_io.specs.Cause.{HasFillCause, one_more};
ghost use Rattle.hms_io.specs.Files.{CountsFile, GivesFile, HasLongerFile, KeepsFiles};

use crate::faults::Faults;
use crate::read_write::{FillError, MAX_LIMIT, fill};
use crate::shelf::Shelf;
use crate::std_source::StdSource;
use sfv_text::Text;
use std::alloc::Global;
use std::io::{ErrorKind, Read};
use std::marker::Model;
use std::rt::Files;
use std::{fs, io};

/// A shelf over the files of the runtime, where a name is a path. A path that the runtime doesn't
/// find is missing, and whatever else it refuses is a fault. The files are unknown.
#[derive(Drop)]
pub struct DirShelf<'a, R> {
    rt: &'a R,
    asked: u64,
    reached: u64,
    faults: Faults,
}

impl<'a, R> Model for DirShelf<'a, R> {
    ghost use Rattle.hms_io.specs.OverStd.{FolderShelf};

    ghost Value = { FolderShelf };

    ghost view = { λ s. record { asked = s.asked; reached = s.reached; faults = s.faults } };
}

impl<'a, R: Files> DirShelf<'a, R> {
    /// The files of this runtime.
    pub fn new(rt: &'a R) -> DirShelf<'a, R>
        ensures { result ≡ record { asked = 0; reached = 0; faults = 0 } }
    {
        DirShelf {
            rt,
            asked: 0,
            reached: 0,
            faults: Faults::new(),
        }
    }

    // Gives what was opened, whole. What isn't found is no fault.
    fn take<F: Read + Drop>(
        &mut self,
        alloc: Global,
        opened: io::Result<F>,
        limit: usize,
    ) -> Result<Option<Text>, FillError>
        requires { limit ≤ MAX_LIMIT }
        ensures file { IfOk opened (λ file. IfSome (F.remaining file) (λ bytes.
            IfOk result (λ found. found ≡ Some bytes))) }
        ensures within { IfOk result (λ found. IfSome found (λ text. length text ≤ limit)) }
        ensures too_long { IsErrOf result FillError.TooLong →
            IfOk opened (λ file. IfSome (F.remaining file) (λ bytes. limit < length bytes)) }
        ensures found { OnOk opened (IfOk result IsSome) }
        ensures not_found { IfErr opened (λ error. error_kind error ≡ ErrorKind.NotFound
            → result ≡ Ok None) }
        ensures refused { IfErr opened (λ error. error_kind error ≢ ErrorKind.NotFound
            → result ≡ Err FillError.Failed) }
        ensures later { self.old.faults ≤ self.new.faults }
        ensures cause { MatchResult result (λ _. self.new.faults ≡ self.old.faults)
            (HasFillCause self.old.faults self.new.faults) }
        ensures counts_one { IsErrOf result FillError.Failed →
            self.new.faults ≡ one_more self.old.faults }
        ensures asked { self.new.asked ≡ self.old.asked }
        ensures reached { self.new.reached ≤ self.old.reached + (limit + 1) }
        ensures counts { IfOk result (CountsFile self.old.reached self.new.reached) }
    {
        let file = match opened {
            Ok(file) => file,
            Err(error) if error.kind() == ErrorKind::NotFound => return Ok(None),
            Err(_) => return Err(FillError::from(self.faults.count_fault())),
        };
        let mut source = StdSource::new(file);
        let answer = fill(alloc, &mut source, limit);
        self.reached = self.reached.saturating_add(source.given());
        match answer {
            Ok(text) => Ok(Some(text)),
            Err(FillError::Failed) => Err(FillError::from(self.faults.count_fault())),
            Err(error) => Err(error),
        }
    }
}

impl<'a, R: Files> Shelf for DirShelf<'a, R> {
    ghost use Rattle.std.specs.Prelude.{None};

    ghost files = { λ _. None };

    ghost faults = { λ s. s.faults };

    ghost asked = { λ s. s.asked };

    ghost reached = { λ s. s.reached };

    fn fetch(&mut self, alloc: Global, name: &str, limit: usize) -> Result<Option<Text>, FillError>
        requires { limit ≤ MAX_LIMIT }
        ensures whole { IfOk result (GivesFile None name.now) }
        ensures within { IfOk result (λ found. IfSome found (λ text. length text ≤ limit)) }
        ensures too_long { IsErrOf result FillError.TooLong →
            HasLongerFile None name.now limit }
        ensures same_files { KeepsFiles None None }
        ensures later { self.old.faults ≤ self.new.faults }
        ensures cause { MatchResult result (λ _. self.new.faults ≡ self.old.faults)
            (HasFillCause self.old.faults self.new.faults) }
        ensures asked { self.new.asked ≡ one_more self.old.asked }
        ensures reached { self.new.reached ≤ self.old.reached + (limit + 1) }
        ensures counts { IfOk result (CountsFile self.old.reached self.new.reached) }
        ensures counts_one { IsErrOf result FillError.Failed →
            self.new.faults ≡ one_more self.old.faults }
    {
        self.asked = self.asked.saturating_add(1);
        let opened = fs::open(self.rt, name);
        self.take(alloc, opened, limit)
    }
}
