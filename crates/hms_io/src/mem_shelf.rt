//! A shelf in memory.

ghost use Rattle.std.specs.Prelude.{◌≡◌, ◌+◌, ◌≤◌, length, None, Some, Err, IfOk, IfSome, OnOk, OnErr, IsErrOf, IsTrue, MatchOption, MatchResult};
ghost use Rattle.std.specs.FinMap as map;
ghost use Rattle.hms_io.specs.Calls.{fails_next};
ghost use Rattle.hms_io.specs.Cause.{HasFillCause, one_more};
ghost use Rattle.hms_io.specs.Files.{CountsFile, GivesFile, HasLongerFile, KeepsFiles};

use crate::calls::Calls;
use crate::read_write::{FillError, MAX_LIMIT};
use crate::shelf::Shelf;
use sfv_text::{Memory, Text};
use std::alloc::Global;
use std::collections::VecDeque;
use std::marker::Model;

/// A shelf that keeps files in memory, and fails at calls of given numbers. Calls are counted from
/// 0, and the count stops at 2^64 - 1.
#[derive(Drop)]
pub struct MemShelf {
    // Names and files, the newest first, so the first of a name is the one that counts.
    log: VecDeque<(Text, Text)>,
    alloc: Global,
    reached: u64,
    calls: Calls,
}

impl Model for MemShelf {
    ghost use Rattle.std.specs.FinMap as map;
    ghost use Rattle.hms_io.specs.InMemory.{MemoryShelf};
    ghost use Rattle.hms_io.specs.tools.Codes.{shelf_code};

    ghost Value = { MemoryShelf };

    ghost coded = { shelf_code };

    ghost view = { λ s. record {
      files = map.from_entries s.log.items;
      reached = s.reached;
      calls = s.calls;
    } };
}

impl MemShelf {
    /// A shelf without files. `fails` has the numbers of the calls of `fetch` that fail.
    pub fn new(alloc: Global, fails: &[u64]) -> Result<MemShelf, Memory>
        ensures { IfOk result (λ s. s ≡ record {
          files = map.empty;
          reached = 0;
          calls = record { fails = fails.now; made = 0; faults = 0 };
        }) }
    {
        let calls = Calls::new(alloc, fails)?;
        Ok(MemShelf {
            log: VecDeque::new(alloc),
            alloc,
            reached: 0,
            calls,
        })
    }

    /// Adds a file, or replaces the one of that name.
    pub fn put(&mut self, name: &str, bytes: &[u8]) -> Result<(), Memory>
        ensures ok { OnOk result (self.new ≡
            record self.old { files = map.insert self.old.files name.now bytes.now }) }
        ensures err { OnErr result (self.new ≡ self.old) }
    {
        let name = Text::from_bytes(self.alloc, name.as_bytes())?;
        let file = Text::from_bytes(self.alloc, bytes)?;
        self.log.push_front((name, file))?;
        Ok(())
    }

    // The file of that name.
    fn find(&self, name: &str) -> Option<&[u8]>
        ensures { MatchOption result (map.get self.now.files name.now ≡ None)
            (λ file. map.get self.now.files name.now ≡ Some file.now) }
    {
        'files: for (key, file) in &self.log {
            if name.as_bytes() == key.bytes() {
                return Some(file.bytes());
            }
        }
        None
    }
}

impl Shelf for MemShelf {
    ghost use Rattle.std.specs.Prelude.{Some};

    ghost files = { λ s. Some s.files };

    ghost faults = { λ s. s.calls.faults };

    ghost asked = { λ s. s.calls.made };

    ghost reached = { λ s. s.reached };

    fn fetch(&mut self, alloc: Global, name: &str, limit: usize) -> Result<Option<Text>, FillError>
        requires { limit ≤ MAX_LIMIT }
        ensures whole { IfOk result (GivesFile (Some self.old.files) name.now) }
        ensures within { IfOk result (λ found. IfSome found (λ text. length text ≤ limit)) }
        ensures too_long { IsErrOf result FillError.TooLong →
            HasLongerFile (Some self.old.files) name.now limit }
        ensures same_files { KeepsFiles (Some self.old.files) (Some self.new.files) }
        ensures later { self.old.calls.faults ≤ self.new.calls.faults }
        ensures cause { MatchResult result (λ _. self.new.calls.faults ≡ self.old.calls.faults)
            (HasFillCause self.old.calls.faults self.new.calls.faults) }
        ensures asked { self.new.calls.made ≡ one_more self.old.calls.made }
        ensures reached { self.new.reached ≤ self.old.reached + (limit + 1) }
        ensures counts { IfOk result (CountsFile self.old.reached self.new.reached) }

        // It fails at the given calls alone.
        ensures fails { IsTrue (fails_next self.old.calls) → result ≡ Err FillError.Failed }
        ensures only { IsErrOf result FillError.Failed → IsTrue (fails_next self.old.calls) }
        ensures counts_one { IsErrOf result FillError.Failed →
            self.new.calls.faults ≡ one_more self.old.calls.faults }
        ensures same_fails { self.new.calls.fails ≡ self.old.calls.fails }
    {
        self.calls.next()?;
        match self.find(name) {
            None => Ok(None),
            Some(file) if file.len() > limit => Err(FillError::TooLong),
            Some(file) => {
                let text = Text::from_bytes(alloc, file)?;
                self.reached = self.reached.saturating_add(text.bytes().len() as u64);
                Ok(Some(text))
            }
        }
    }
}
