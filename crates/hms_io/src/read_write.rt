//! Whole texts over a source and a sink.

ghost use Rattle.std.specs.Prelude.{◌≡◌, ◌+◌, ◌<◌, ◌≤◌, ℕ, length, IfOk, OnOk, OnErr, IfSome, IsErrOf, MatchResult};
ghost use Rattle.std.specs.Io.KnownBytes.{Appends};
ghost use Rattle.hms_io.specs.Cause.{HasCause, HasFillCause};
ghost use Rattle.hms_io.specs.Reading.{GivesAll, LosesPrefix, RoseBy};
ghost use Rattle.hms_io.specs.Writing.{AppendsPart};

use crate::faults::Failed;
use crate::sink::Sink;
use crate::source::Source;
use sfv_text::{Memory, Text};
use std::alloc::Global;
use std::error::Error;
use std::fmt;

/// The most that may be asked of [`fill`] and of [`take_file`](crate::take_file) as their limit, in
/// bytes.
pub const MAX_LIMIT: usize = 67_108_864;

// How many bytes are asked of a source at once.
const CHUNK: usize = 4096;

/// Why a source isn't read whole.
#[derive(Clone, Copy, Debug, PartialEq, Eq)]
pub enum FillError {
    /// Out of memory, which is only asked for where a byte came.
    Memory,
    /// A read failed.
    Failed,
    /// More bytes came than the limit allows.
    TooLong,
}

impl fmt::Display for FillError {
    ghost use Rattle.std.specs.Prelude.{Some};
    ghost use Rattle.hms_io.specs.Words.{fill_error_text};

    ghost output = { λ it. Some (fill_error_text it) };

    fn fmt<W: fmt::Write>(&self, f: &mut fmt::Formatter<W>) -> fmt::Result {
        f.write_str(match self {
            FillError::Memory => "out of memory",
            FillError::Failed => "a read failed",
            FillError::TooLong => "the input is longer than the limit",
        })
    }
}

impl Error for FillError {}

impl From<Memory> for FillError {
    ghost use Rattle.std.specs.Prelude.{◌≡◌};
    ghost use Rattle.hms_io.specs.declared.read_write.FillError.TheVariants.{Memory as OutOfMemory};

    ghost from_gives = { λ _ e. e ≡ OutOfMemory };

    fn from(_memory: Memory) -> FillError {
        FillError::Memory
    }
}

impl From<Failed> for FillError {
    ghost use Rattle.std.specs.Prelude.{◌≡◌};
    ghost use Rattle.hms_io.specs.declared.read_write.FillError.TheVariants.{Failed as ReadFailed};

    ghost from_gives = { λ _ e. e ≡ ReadFailed };

    fn from(_failed: Failed) -> FillError {
        FillError::Failed
    }
}

/// Reads a source to its end, or until `limit + 1` bytes came. After an error the bytes that were
/// read are gone from the source.
pub fn fill<S: Source>(alloc: Global, source: &mut S, limit: usize) -> Result<Text, FillError>
    requires { limit ≤ MAX_LIMIT }
    ensures whole { IfOk result (GivesAll (S.left source.old) (S.left source.new)) }
    ensures within { IfOk result (λ text. length text ≤ limit) }

    // More than `limit` bytes were left, and one more than that was read.
    ensures too_long { IsErrOf result FillError.TooLong →
        LosesPrefix (S.left source.old) (S.left source.new) (limit + 1) }
    ensures prefix { OnErr result
        ((n : ℕ) × (n ≤ limit + 1) × LosesPrefix (S.left source.old) (S.left source.new) n) }
    ensures few { S.given source.new ≤ S.given source.old + (limit + 1) }

    // The source counts each byte of the text.
    ensures counts { IfOk result
        (λ text. RoseBy (length text) (S.given source.old) (S.given source.new)) }

    // Each read gives a byte or ends it.
    ensures idle { S.idle source.new ≤ S.idle source.old + 1 }
    ensures needed { IsErrOf result FillError.Memory →
        IfSome (S.left source.old) (λ all. 1 ≤ length all) }
    ensures later { S.faults source.old ≤ S.faults source.new }

    // Once the end was reported, the source isn't read again.
    ensures ended { S.ended source.old ≡ 0 → S.ended source.new ≤ 1 }
    ensures cause { MatchResult result (λ _. S.faults source.new ≡ S.faults source.old)
        (HasFillCause (S.faults source.old) (S.faults source.new)) }
{
    let mut chunk = [0u8; CHUNK];
    let mut text = Text::new(alloc);
    let mut room = limit + 1;
    'reads: while room > 0 {
        let size = room.min(CHUNK);
        let count = source.read(&mut chunk[..size])?;
        if count == 0 {
            return Ok(text);
        }
        text.append(&chunk[..count])?;
        room -= count;
    }
    Err(FillError::TooLong)
}

/// Writes the whole text to a sink. It takes no memory.
pub fn put_all<K: Sink>(sink: &mut K, text: &[u8]) -> Result<(), Failed>
    ensures ok { OnOk result (Appends (K.taken sink.old) (K.taken sink.new) text.now) }

    // Only a prefix of the text was taken, which isn't all of it.
    ensures prefix { OnErr result (AppendsPart (K.taken sink.old) (K.taken sink.new) text.now) }
    ensures cause { HasCause (K.faults sink.old) (K.faults sink.new) result }

    // Each write takes a byte or ends it, by its fault.
    ensures idle { MatchResult result (λ _. K.idle sink.new ≡ K.idle sink.old)
        (λ _. K.idle sink.new ≤ K.idle sink.old + 1) }
{
    let mut at = 0;
    'writes: while at < text.len() {
        at += sink.write(&text[at..])?;
    }
    Ok(())
}
