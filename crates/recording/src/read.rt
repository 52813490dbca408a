//! Reads recordings.

ghost use Rattle.std.specs.Prelude.{◌≡◌, ◌≢◌, ◌≤◌, ℕ, Option, List, Ok, Err, length, option_map, IfErr, IfOk, MatchResult};
ghost use Rattle.byte_grammar.specs.Causes.{AnswersWhere};
ghost use Rattle.recording.specs.Items.{Body, PlacedItem, body_of};
ghost use Rattle.recording.specs.Recordings.{SpellsRecording};
ghost use Rattle.recording.specs.Causes.{IsRecordingFault};
ghost use Rattle.recording.specs.tools.Running.{moment_after};
ghost use Rattle.recording.specs.tools.RecordingWalk.{moment_step, stored_step, item_step, first_step, recording_step};
ghost use Rattle.recording.specs.tools.NextItems.{BeginsWithFirst, BeginsWithNext, IsStop, bytes_left};
ghost use Rattle.recording.specs.tools.Judged.{Gives, Explains};

use crate::fault::RecordingFault;
use crate::item::ItemBody;
use crate::limits::MAX_ITEM_BYTES;
use crate::view::Recording;
use crate::word::{Word, read_word};
use byte_grammar::{Left, read_counted, read_literal, read_number};
use std::alloc::Global;

// The line that names the format.
pub(crate) const FIRST_LINE: &[u8] = b"hms-recording 1\n";

// The line after which nothing comes.
pub(crate) const LAST_LINE: &[u8] = b"end\n";

// Why no items are read. A number is that of the bytes that were left: where it stopped, or before
// the line.
#[derive(Clone, Copy)]
pub(crate) enum Stop {
    Left(usize),
    TooLong(usize),
    MomentFalls(usize),
}

impl From<Left> for Stop {
    ghost use Rattle.std.specs.Prelude.{◌≡◌};
    ghost use Rattle.recording.specs.declared.read.Stop.TheVariants.{Left};

    ghost from_gives = { λ left stop. stop ≡ Left left.0 };

    fn from(left: Left) -> Stop {
        Stop::Left(left.0)
    }
}

// Reads the moment of an item that isn't the first, where so many bytes were left before its line.
#[tactic(auto, unfolding(crate::specs::tools::RecordingWalk::moment_step))]
fn read_moment(last: u64, line: usize, bytes: &[u8]) -> Result<(u64, &[u8]), Stop>
    ensures { Gives (λ x. (x.0, x.1.now)) result (moment_step last line bytes.now) }
{
    let (moment, rest) = read_number(b'\n', bytes)?;
    if moment < last {
        return Err(Stop::MomentFalls(line));
    }
    Ok((moment, rest))
}

// Reads the bytes of an item, where so many bytes were left before its line. Their number is judged
// before they are asked for.
#[tactic(auto, unfolding(crate::specs::tools::RecordingWalk::stored_step))]
fn read_stored(line: usize, bytes: &[u8]) -> Result<(&[u8], &[u8]), Stop>
    ensures { Gives (λ x. (x.0.now, x.1.now)) result (stored_step line bytes.now) }
{
    let (size, rest) = read_number(b'\n', bytes)?;
    if size > MAX_ITEM_BYTES as u64 {
        return Err(Stop::TooLong(line));
    }
    Ok(read_counted(size as usize, rest)?)
}

// Reads what comes after the last moment: an item, or the last line.
#[tactic(auto, unfolding(crate::specs::tools::RecordingWalk::item_step, crate::specs::tools::RecordingWalk::body_step))]
fn read_next(last: u64, bytes: &[u8]) -> Result<(Option<ItemBody<'_>>, &[u8]), Stop>
    ensures { Gives (λ x. (option_map body_of x.0, x.1.now)) result (item_step last bytes.now) }
{
    let (word, rest) = read_word(bytes)?;
    match word {
        Word::End => Ok((None, rest)),
        Word::At => {
            let (moment, rest) = read_moment(last, bytes.len(), rest)?;
            Ok((Some(ItemBody::At(moment)), rest))
        }
        Word::Message(role) => {
            let (message, rest) = read_stored(bytes.len(), rest)?;
            Ok((Some(ItemBody::Message(role, message)), rest))
        }
        Word::Script => {
            let (script, rest) = read_stored(bytes.len(), rest)?;
            Ok((Some(ItemBody::Script(script)), rest))
        }
    }
}

// Reads an item after the last moment, or the last line. Where it stops with no byte left, more
// bytes may make it one.
pub(crate) fn read_item(last: u64, bytes: &[u8]) -> Result<(Option<ItemBody<'_>>, &[u8]), Stop>
    ensures gives { Gives (λ x. (option_map body_of x.0, x.1.now)) result
        (item_step last bytes.now) }
    ensures is { MatchResult result
        (λ x. BeginsWithNext last (option_map body_of x.0) x.1.now bytes.now)
        (λ stop. IsStop last bytes.now stop) }
    ensures only { (next : Option Body) (rest : List ℕ) → BeginsWithNext last next rest bytes.now
        → MatchResult result (λ x. (option_map body_of x.0 ≡ next) × (x.1.now ≡ rest))
        (λ _. ⊥) }
{
    read_next(last, bytes)
}

// Reads the line that names the format and a moment.
#[tactic(auto, unfolding(crate::specs::tools::RecordingWalk::first_step))]
fn read_begin(text: &[u8]) -> Result<(u64, &[u8]), Stop>
    ensures { Gives (λ x. (x.0, x.1.now)) result (first_step text.now) }
{
    let rest = read_literal(FIRST_LINE, text)?;
    let rest = read_literal(b"at ", rest)?;
    Ok(read_number(b'\n', rest)?)
}

// Reads the line that names the format and the first item, which is a moment. Where it stops with
// no byte left, more bytes may make it one.
pub(crate) fn read_first(text: &[u8]) -> Result<(u64, &[u8]), Stop>
    ensures gives { Gives (λ x. (x.0, x.1.now)) result (first_step text.now) }
    ensures is { MatchResult result (λ x. BeginsWithFirst x.0 x.1.now text.now)
        (λ stop. bytes_left stop ≤ length text.now) }
{
    read_begin(text)
}

// Goes over the items, up to and with the last line. It answers what comes after it.
fn skip_items(text: &[u8]) -> Result<&[u8], Stop>
    ensures { MatchResult result
        (λ rest. (items : List Body) × (recording_step text.now ≡ Ok (items, rest.now)))
        (λ stop. recording_step text.now ≡ Err stop) }
{
    let (mut last, mut left) = read_first(text)?;
    'items: loop {
        let (item, rest) = read_item(last, left)?;
        match item {
            None => return Ok(rest),
            Some(body) => {
                last = moment_after(last, body);
                left = rest;
            }
        }
    }
}

// The last moment after an item.
pub(crate) fn moment_after(last: u64, body: ItemBody<'_>) -> u64
    ensures { result ≡ moment_after last (body_of body.entry) }
{
    match body {
        ItemBody::At(moment) => moment,
        _ => last,
    }
}

// The answer to a text, by its cause.
fn judge<'r>(text: &'r [u8]) -> Result<Recording<'r>, RecordingFault>
    ensures { Explains text.now result }
{
    let size = text.len();
    match skip_items(text) {
        Ok([]) => Ok(Recording::of(text)),
        Ok(rest) => Err(RecordingFault::Syntax((size - rest.len()) as u64)),
        Err(Stop::Left(left)) => Err(RecordingFault::Syntax((size - left) as u64)),
        Err(Stop::TooLong(left)) => Err(RecordingFault::ItemTooLong((size - left) as u64)),
        Err(Stop::MomentFalls(left)) => Err(RecordingFault::MomentFalls((size - left) as u64)),
    }
}

/// Reads a recording: the line `hms-recording 1`, items, and the line `end`, after which nothing
/// comes. The first item is a moment, and no moment is earlier than the one before it.
///
/// No memory is asked for: the text is gone over once, and no item is kept. That an item is too
/// long is answered where its line says so, before its bytes are asked for.
pub fn read_recording<'r>(_alloc: Global, text: &'r [u8]) -> Result<Recording<'r>, RecordingFault>
    ensures ok { IfOk result (λ given. SpellsRecording text.now given) }
    ensures only { (items : List PlacedItem) → SpellsRecording text.now items
        → MatchResult result (λ given. given ≡ items) (λ fault. fault ≡ RecordingFault.Memory) }
    ensures no_memory { IfErr result (λ fault. fault ≢ RecordingFault.Memory) }

    // The first fault whose cause holds is answered, and no other.
    ensures fault { (fault : RecordingFault) → fault ≢ RecordingFault.Memory
        → AnswersWhere RecordingFault.Memory result fault (IsRecordingFault text.now fault) }
{
    judge(text)
}
