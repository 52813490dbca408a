//! A sink in memory.

ghost use Rattle.std.specs.Prelude.{◌≡◌, ◌≤◌, ◌-◌, ◌&&◌, ◌||◌, [], min, nat_lt, length, Some, IfOk, OnErr, is_err};
ghost use Rattle.std.specs.Io.{WritesAtMost};
ghost use Rattle.std.specs.Io.KnownBytes.{WriteAppends};
ghost use Rattle.hms_io.specs.Calls.{fails_next};
ghost use Rattle.hms_io.specs.Cause.{HasCause, one_more};
ghost use Rattle.hms_io.specs.Idle.{idle_after};
ghost use Rattle.hms_io.specs.InMemory.{is_full};

use crate::calls::Calls;
use crate::faults::Failed;
use crate::sink::Sink;
use sfv_text::Memory;
use std::alloc::Global;
use std::marker::Model;

/// A sink that takes bytes into memory in pieces, and fails at calls of given numbers, and where it
/// is full. Calls are counted from 0, and the count stops at 2^64 - 1.
#[derive(Drop)]
pub struct MemSink {
    bytes: Vec<u8>,
    room: usize,
    piece: usize,
    idle: u64,
    calls: Calls,
}

impl Model for MemSink {
    ghost use Rattle.std.specs.Prelude.{◌≤◌, vec_len, vec_capacity};
    ghost use Rattle.hms_io.specs.InMemory.{MemorySink};

    ghost Value = { MemorySink };

    ghost view = { λ s. record {
      taken = s.bytes.items;
      room = s.room;
      piece = s.piece;
      idle = s.idle;
      calls = s.calls;
    } };

    ghost invariant = { λ s. (vec_len s.bytes ≤ s.room) × (s.room ≤ vec_capacity s.bytes)
        × (1 ≤ s.piece) };
}

impl MemSink {
    /// An empty sink for at most `room` bytes in all, whose memory is found here. A call takes at
    /// most `piece` bytes, and `fails` has the numbers of the calls that fail.
    pub fn new(alloc: Global, room: usize, piece: usize, fails: &[u64]) -> Result<MemSink, Memory>
        requires { 1 ≤ piece }
        ensures { IfOk result (λ s. s ≡ record {
          taken = [];
          room = room;
          piece = piece;
          idle = 0;
          calls = record { fails = fails.now; made = 0; faults = 0 };
        }) }
    {
        let bytes = Vec::with_capacity(alloc, room)?;
        let calls = Calls::new(alloc, fails)?;
        Ok(MemSink {
            bytes,
            room,
            piece,
            idle: 0,
            calls,
        })
    }

    /// The bytes taken, in order.
    pub fn taken(&self) -> &[u8]
        ensures { result.now ≡ self.now.taken }
    {
        self.bytes.as_slice()
    }
}

impl Sink for MemSink {
    ghost use Rattle.std.specs.Prelude.{Some};

    ghost taken = { λ s. Some s.taken };

    ghost faults = { λ s. s.calls.faults };

    ghost idle = { λ s. s.idle };

    fn write(&mut self, piece: &[u8]) -> Result<usize, Failed>
        ensures bound { WritesAtMost result piece.now }
        ensures bytes { WriteAppends (Some self.old.taken) (Some self.new.taken) result piece.now }
        ensures some { IfOk result (λ n. n ≡ 0 → length piece.now ≡ 0) }
        ensures cause { HasCause self.old.calls.faults self.new.calls.faults result }
        ensures idle { self.new.idle ≡ idle_after self.old.idle result }

        // It fails at the given calls and where it is full, and else takes as much as it may.
        ensures fails { is_err result ≡
            (fails_next self.old.calls || (is_full self.old && nat_lt 0 (length piece.now))) }
        ensures amount { IfOk result (λ n. n ≡ min (self.old.room - length self.old.taken)
            (min self.old.piece (length piece.now))) }
        ensures counts_one { OnErr result (self.new.calls.faults ≡ one_more self.old.calls.faults) }
        ensures made { self.new.calls.made ≡ one_more self.old.calls.made }
        ensures same_fails { self.new.calls.fails ≡ self.old.calls.fails }
        ensures same_room { self.new.room ≡ self.old.room }
        ensures same_piece { self.new.piece ≡ self.old.piece }
    {
        let idle = self.idle;
        self.idle = idle.saturating_add(1);
        self.calls.next()?;
        let room = self.room - self.bytes.len();
        if room == 0 && !piece.is_empty() {
            return Err(self.calls.count_fault());
        }
        let amount = room.min(self.piece).min(piece.len());
        let _ = self.bytes.extend_from_slice(&piece[..amount]);
        if amount != 0 {
            self.idle = idle;
        }
        Ok(amount)
    }
}
