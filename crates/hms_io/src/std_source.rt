//! A source over a reader of std.

ghost use Rattle.std.specs.Prelude.{◌≡◌, OnErr};
ghost use Rattle.std.specs.Io.{ReadsAtMost};
ghost use Rattle.std.specs.Io.KnownBytes.{ReadConsumes};
ghost use Rattle.hms_io.specs.Cause.{HasCause, one_more};
ghost use Rattle.hms_io.specs.Idle.{idle_after};
ghost use Rattle.hms_io.specs.Reading.{calls_from_end, given_after, reports_end};

use crate::end::EndCount;
use crate::faults::{Failed, Faults};
use crate::source::Source;
use std::io::Read;
use std::marker::Model;

/// A source over a reader of std. Its bytes are known where those of the reader are. Whatever the
/// reader refuses is a fault, an interrupted call too.
#[derive(Drop)]
pub struct StdSource<R: Read> {
    reader: R,
    given: u64,
    ended: EndCount,
    idle: u64,
    faults: Faults,
}

impl<R: Read> Model for StdSource<R> {
    ghost use Rattle.hms_io.specs.OverStd.{ReaderSource};

    ghost Value = { ReaderSource };

    ghost view = { λ s. record {
      left = R.remaining s.reader;
      given = s.given;
      ended = s.ended;
      idle = s.idle;
      faults = s.faults;
    } };
}

impl<R: Read> StdSource<R> {
    /// A source of what the reader gives.
    pub fn new(reader: R) -> StdSource<R>
        ensures { result ≡ record {
          left = R.remaining reader;
          given = 0;
          ended = 0;
          idle = 0;
          faults = 0;
        } }
    {
        StdSource {
            reader,
            given: 0,
            ended: EndCount::new(),
            idle: 0,
            faults: Faults::new(),
        }
    }

    // How many bytes the reader gave, at most 2^64 - 1.
    pub(crate) fn given(&self) -> u64
        ensures { result ≡ self.now.given }
    {
        self.given
    }
}

// Whether the answer for the piece reports the end.
fn is_end(answer: &Result<usize, Failed>, piece: &[u8]) -> bool
    ensures { result ≡ reports_end answer.now piece.now }
{
    match answer {
        Ok(count) => *count == 0 && !piece.is_empty(),
        Err(_) => false,
    }
}

impl<R: Read> Source for StdSource<R> {
    ghost left = { λ s. s.left };

    ghost given = { λ s. s.given };

    ghost faults = { λ s. s.faults };

    ghost ended = { λ s. s.ended };

    ghost idle = { λ s. s.idle };

    fn read(&mut self, into: &mut [u8]) -> Result<usize, Failed>
        ensures bound { ReadsAtMost result into.new }
        ensures bytes { ReadConsumes self.old.left self.new.left result into.new }
        ensures given { self.new.given ≡ given_after self.old.given result }
        ensures cause { HasCause self.old.faults self.new.faults result }
        ensures ended { self.new.ended ≡
            calls_from_end self.old.ended (reports_end result into.new) }
        ensures idle { self.new.idle ≡ idle_after self.old.idle result }
        ensures counts_one { OnErr result (self.new.faults ≡ one_more self.old.faults) }
    {
        let idle = self.idle;
        self.idle = idle.saturating_add(1);
        let answer = self.faults.check(self.reader.read(into));
        self.ended.count_call(is_end(&answer, into));
        if let Ok(count) = &answer {
            self.given = self.given.saturating_add(*count as u64);
            if *count != 0 {
                self.idle = idle;
            }
        }
        answer
    }
}
