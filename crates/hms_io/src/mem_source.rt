//! A source in memory.

ghost use Rattle.std.specs.Prelude.{◌≡◌, ◌≤◌, min, length, drop, Some, IfOk, OnErr, is_err};
ghost use Rattle.std.specs.Io.{ReadsAtMost};
ghost use Rattle.std.specs.Io.KnownBytes.{ReadConsumes};
ghost use Rattle.hms_io.specs.Calls.{fails_next};
ghost use Rattle.hms_io.specs.Cause.{HasCause, one_more};
ghost use Rattle.hms_io.specs.Idle.{idle_after};
ghost use Rattle.hms_io.specs.Reading.{calls_from_end, given_after, reports_end};

use crate::calls::Calls;
use crate::end::EndCount;
use crate::faults::Failed;
use crate::source::Source;
use sfv_text::Memory;
use std::alloc::Global;
use std::marker::Model;

/// A source that gives bytes of memory in pieces, and fails at calls of given numbers. Calls are
/// counted from 0, and the count stops at 2^64 - 1.
#[derive(Drop)]
pub struct MemSource {
    bytes: Vec<u8>,
    at: usize,
    piece: usize,
    ended: EndCount,
    idle: u64,
    calls: Calls,
}

impl Model for MemSource {
    ghost use Rattle.std.specs.Prelude.{◌≤◌, drop, vec_len};
    ghost use Rattle.hms_io.specs.InMemory.{MemorySource};

    ghost Value = { MemorySource };

    ghost view = { λ s. record {
      left = drop s.at s.bytes.items;
      given = s.at;
      ended = s.ended;
      idle = s.idle;
      piece = s.piece;
      calls = s.calls;
    } };

    ghost invariant = { λ s. (s.at ≤ vec_len s.bytes) × (1 ≤ s.piece) };
}

impl MemSource {
    /// A source of these bytes. A call gives at most `piece` of them, and `fails` has the numbers
    /// of the calls that fail.
    pub fn new(
        alloc: Global,
        bytes: &[u8],
        piece: usize,
        fails: &[u64],
    ) -> Result<MemSource, Memory>
        requires { 1 ≤ piece }
        ensures { IfOk result (λ s. s ≡ record {
          left = bytes.now;
          given = 0;
          ended = 0;
          idle = 0;
          piece = piece;
          calls = record { fails = fails.now; made = 0; faults = 0 };
        }) }
    {
        let bytes = Vec::from_slice(alloc, bytes)?;
        let calls = Calls::new(alloc, fails)?;
        Ok(MemSource {
            bytes,
            at: 0,
            piece,
            ended: EndCount::new(),
            idle: 0,
            calls,
        })
    }
}

impl Source for MemSource {
    ghost use Rattle.std.specs.Prelude.{Some};

    ghost left = { λ s. Some s.left };

    ghost given = { λ s. s.given };

    ghost faults = { λ s. s.calls.faults };

    ghost ended = { λ s. s.ended };

    ghost idle = { λ s. s.idle };

    fn read(&mut self, into: &mut [u8]) -> Result<usize, Failed>
        ensures bound { ReadsAtMost result into.new }
        ensures bytes { ReadConsumes (Some self.old.left) (Some self.new.left) result into.new }
        ensures given { self.new.given ≡ given_after self.old.given result }
        ensures cause { HasCause self.old.calls.faults self.new.calls.faults result }
        ensures ended { self.new.ended ≡
            calls_from_end self.old.ended (reports_end result into.new) }
        ensures idle { self.new.idle ≡ idle_after self.old.idle result }

        // It fails at the given calls alone, and else gives as much as it may.
        ensures fails { is_err result ≡ fails_next self.old.calls }
        ensures amount { IfOk result (λ n.
            n ≡ min (length self.old.left) (min self.old.piece (length into.old))) }
        ensures rest { IfOk result (λ n. drop n into.new ≡ drop n into.old) }
        ensures unchanged { OnErr result (into.new ≡ into.old) }
        ensures counts_one { OnErr result (self.new.calls.faults ≡ one_more self.old.calls.faults) }
        ensures made { self.new.calls.made ≡ one_more self.old.calls.made }
        ensures same_fails { self.new.calls.fails ≡ self.old.calls.fails }
        ensures same_piece { self.new.piece ≡ self.old.piece }
    {
        let idle = self.idle;
        self.idle = idle.saturating_add(1);
        if let Err(failed) = self.calls.next() {
            self.ended.count_call(false);
            return Err(failed);
        }
        let left = self.bytes.len() - self.at;
        let amount = left.min(self.piece).min(into.len());
        let end = self.at + amount;
        into[..amount].copy_from_slice(&self.bytes[self.at..end]);
        self.at = end;
        self.idle = if amount == 0 { self.idle } else { idle };
        self.ended.count_call(amount == 0 && !into.is_empty());
        Ok(amount)
    }
}
