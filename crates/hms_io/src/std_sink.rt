//! A sink over a writer of std.

ghost use Rattle.std.specs.Prelude.{◌≡◌, ◌<◌, length, IfOk, OnOk, OnErr, IsErr};
ghost use Rattle.std.specs.Io.{WritesAtMost};
ghost use Rattle.std.specs.Io.KnownBytes.{WriteAppends};
ghost use Rattle.hms_io.specs.Cause.{HasCause, one_more};
ghost use Rattle.hms_io.specs.Idle.{idle_after};

use crate::faults::{Failed, Faults};
use crate::sink::Sink;
use std::io::Write;
use std::marker::Model;

/// A sink over a writer of std. Its bytes are known where those of the writer are. Each write is
/// flushed. Whatever the writer refuses is a fault, an interrupted call too, and so is a flush that
/// fails, and a write that takes nothing of a piece that isn't empty.
///
/// Bytes whose flush failed don't count as taken, though the writer may still bring them to their
/// end. After them the sink takes nothing more, and each further call fails.
#[derive(Drop)]
pub struct StdSink<W: Write> {
    writer: W,
    // How many bytes the writer took in a write whose flush failed.
    unflushed: usize,
    idle: u64,
    faults: Faults,
}

impl<W: Write> Model for StdSink<W> {
    ghost use Rattle.hms_io.specs.OverStd.{WriterSink};
    ghost use Rattle.hms_io.specs.OverStd.{without_last};

    ghost Value = { WriterSink };

    ghost view = { λ s. record {
      taken = without_last s.unflushed (W.contents s.writer);
      unflushed = s.unflushed;
      idle = s.idle;
      faults = s.faults;
    } };
}

impl<W: Write> StdSink<W> {
    /// A sink to the writer.
    pub fn new(writer: W) -> StdSink<W>
        ensures { result ≡ record {
          taken = W.contents writer;
          unflushed = 0;
          idle = 0;
          faults = 0;
        } }
    {
        StdSink {
            writer,
            unflushed: 0,
            idle: 0,
            faults: Faults::new(),
        }
    }
}

impl<W: Write> Sink for StdSink<W> {
    ghost taken = { λ s. s.taken };

    ghost faults = { λ s. s.faults };

    ghost idle = { λ s. s.idle };

    fn write(&mut self, piece: &[u8]) -> Result<usize, Failed>
        ensures bound { WritesAtMost result piece.now }
        ensures bytes { WriteAppends self.old.taken self.new.taken result piece.now }
        ensures some { IfOk result (λ n. n ≡ 0 → length piece.now ≡ 0) }
        ensures cause { HasCause self.old.faults self.new.faults result }
        ensures idle { self.new.idle ≡ idle_after self.old.idle result }
        ensures counts_one { OnErr result (self.new.faults ≡ one_more self.old.faults) }

        // What was taken is flushed, and after bytes whose flush failed each call fails.
        ensures flushed { OnOk result (self.new.unflushed ≡ 0) }
        ensures broken { 0 < self.old.unflushed → IsErr result }
        ensures still_broken { 0 < self.old.unflushed → self.new.unflushed ≡ self.old.unflushed }
    {
        let idle = self.idle;
        self.idle = idle.saturating_add(1);
        if self.unflushed > 0 {
            return Err(self.faults.count_fault());
        }
        let count = self.faults.check(self.writer.write(piece))?;
        if count == 0 && !piece.is_empty() {
            return Err(self.faults.count_fault());
        }
        self.unflushed = count;
        self.faults.check(self.writer.flush())?;
        self.unflushed = 0;
        if count != 0 {
            self.idle = idle;
        }
        Ok(count)
    }
}
