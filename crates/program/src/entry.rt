//! The top call: all that the program does.

ghost use Rattle.std.specs.Prelude.{◌≡◌, ◌⊎◌, ◌≤◌, ◌+◌, Err, IfSome, IfNone, IsTrue, map, string_bytes};
ghost use Rattle.std.specs.List.{list_all};
ghost use Rattle.sfv_text.specs.Classes.{is_byte};
ghost use Rattle.hms_io.specs.Files.{KeepsFiles};
ghost use Rattle.command_line.specs.Command.{Gateway, IsCommand, NoCommand, gateway_words};
ghost use Rattle.program.specs.Commands.{GivesFew, NamesNoFile, ReadsNoInput, ReadsWhole, ReachesNamed, ReadsFew};
ghost use Rattle.program.specs.Ends.{AsksForNamed, HasReport, Ends, TellsWhy, WritesRefusal, CountsFaults, CountsReads};
ghost use Rattle.program.specs.StreamEnds.{IsRefusedFor, WritesStream};
ghost use Rattle.program.specs.StreamMeanings.{WritesPassed};
ghost use Rattle.program.specs.Meanings.{WritesExplanation, WritesNegotiated, WritesOneBase, WritesOneChain, WritesRewritten, WritesSigned, WritesTurned, WritesVerdicts};
ghost use Rattle.refusals.specs.declared.refusal.Refusal.TheVariants.{Arguments};
ghost use Rattle.intake.specs.declared.stop.Stop.TheVariants.{Refused};
ghost use Rattle.commands.specs.Outcome.{IfOutcome};
ghost use Rattle.program.specs.tools.Parts.{AsksOf, CountsOne, IsWritten, IsWrittenStop, begin_stream};

use crate::ended::Ended;
use crate::help::{help_outcome, version_outcome, write_help_of};
use crate::over_message::over_message;
use crate::over_stream::over_stream;
use crate::over_text::over_text;
use command_line::{Command, GatewayWords, read_words};
use commands::{Outcome, sample_outcome};
use hms_io::{Failed, Shelf, Sink, Source, Status, put_all};
use intake::Stop;
use refusals::Refusal;
use std::alloc::Global;

/// Does what the arguments ask for.
fn run_command<F: Shelf, S: Source>(
    alloc: Global,
    arguments: &[String],
    shelf: &mut F,
    source: &mut S,
) -> Result<Outcome, Stop>
    requires { ReadsWhole (map string_bytes arguments.now) }
    ensures report { IfOutcome result (HasReport (map string_bytes arguments.now)
        (F.files shelf.old) (source.new ≡ source.old) (S.left source.old) (S.left source.new)) }
    ensures cause { CountsOne (source.new ≡ source.old) (F.faults shelf.old) (F.faults shelf.new)
        (S.faults source.old) (S.faults source.new) result }
    ensures shelf_later { F.faults shelf.old ≤ F.faults shelf.new }
    ensures source_later { S.faults source.old ≤ S.faults source.new }
    ensures few { ReadsFew (map string_bytes arguments.now)
        (S.left source.old) (S.left source.new) }
    ensures given { GivesFew (map string_bytes arguments.now)
        (S.given source.old) (S.given source.new) }
    ensures ended { S.ended source.old ≡ 0 → S.ended source.new ≤ 1 }
    ensures idle { S.idle source.new ≤ S.idle source.old + 1 }
    ensures asked { AsksOf (map string_bytes arguments.now) result
        (F.asked shelf.old) (F.asked shelf.new) }
    ensures reached { ReachesNamed (map string_bytes arguments.now)
        (F.reached shelf.old) (F.reached shelf.new) }
    ensures files { KeepsFiles (F.files shelf.old) (F.files shelf.new) }
    ensures refused { NoCommand (map string_bytes arguments.now)
        → result ≡ Err (Refused Arguments) }
    ensures unread { ReadsNoInput (map string_bytes arguments.now) → source.new ≡ source.old }
    ensures unasked { NamesNoFile (map string_bytes arguments.now) → shelf.new ≡ shelf.old }
{
    let Some(command) = read_words(arguments) else {
        return Err(Stop::Refused(Refusal::Arguments));
    };
    match command {
        Command::Help => Ok(help_outcome(alloc)?),
        Command::HelpOf(name) => Ok(write_help_of(alloc, name)?),
        Command::Version => Ok(version_outcome(alloc)?),
        Command::Base(words) => over_message(alloc, &words, shelf, source),
        Command::Verify(words) => over_message(alloc, &words, shelf, source),
        Command::Sign(words) => over_message(alloc, &words, shelf, source),
        Command::Rewrite(words) => over_message(alloc, &words, shelf, source),
        Command::Explain(words) => over_message(alloc, &words, shelf, source),
        Command::Audit(words) => over_text(alloc, &words, shelf, source),
        // what it writes isn't known before all is read
        Command::Gateway(_) => unreachable!(),
        Command::Lists(words) => {
            if words.into_message {
                over_text(alloc, &words, shelf, source)
            } else {
                over_message(alloc, &words, shelf, source)
            }
        }
        Command::Negotiate(words) => over_message(alloc, &words, shelf, source),
        Command::Sample(words) => sample_outcome(alloc, words.seed, words.count),
    }
}

/// The same bytes, of which the contract says that they are bytes.
fn of_bytes(bytes: &[u8]) -> &[u8]
    ensures same { result.now ≡ bytes.now }
    ensures are { IsTrue (list_all is_byte bytes.now) }
{
    bytes
}

/// Writes the outcome.
pub(crate) fn write_outcome<K: Sink>(alloc: Global, outcome: Outcome, out: &mut K) -> Ended
    ensures ends { IsWritten outcome (K.taken out.old) (K.taken out.new)
        result.status result.refusal }
    ensures writes { CountsFaults Status.WriteFault result.status
        (K.faults out.old) (K.faults out.new) }
    ensures idle { K.idle out.new ≤ K.idle out.old + 1 }
{
    let status = outcome.status();
    let Ok((output, refusal)) = outcome.into_parts(alloc) else {
        return Ended::of_status(Status::OutOfMemory);
    };
    match put_all(out, of_bytes(output.bytes())) {
        Ok(()) => Ended { status, refusal },
        Err(Failed) => Ended::of_status(Status::WriteFault),
    }
}

/// How a run ends that is stopped before anything is written.
pub(crate) fn end_stopped<K: Sink>(alloc: Global, stop: Stop, out: &mut K) -> Ended
    ensures ends { IsWrittenStop stop (K.taken out.old) (K.taken out.new)
        result.status result.refusal }
    ensures writes { CountsFaults Status.WriteFault result.status
        (K.faults out.old) (K.faults out.new) }
    ensures idle { K.idle out.new ≤ K.idle out.old + 1 }
{
    match stop {
        Stop::Refused(refusal) => write_outcome(alloc, Outcome::Refused(refusal), out),
        Stop::ReadFault => Ended::of_status(Status::ReadFault),
        Stop::Memory => Ended::of_status(Status::OutOfMemory),
    }
}

/// Whether the first of the words is the name of the command that writes before it has read all.
fn begin_stream(words: &[String]) -> bool
    ensures { result ≡ begin_stream (map string_bytes words.now) }
{
    match words {
        [] => false,
        [name, ..] => name.as_str() == "gateway",
    }
}

/// The words of the command that writes before it has read all, if the arguments are of that one.
fn stream_words<'a>(arguments: &'a [String]) -> Option<GatewayWords<'a>>
    ensures some { IfSome result (λ words.
        IsCommand (map string_bytes arguments.now) (Gateway (gateway_words words))) }
    ensures none { IfNone result (ReadsWhole (map string_bytes arguments.now)) }
{
    if !begin_stream(arguments) {
        return None;
    }
    match read_words(arguments)? {
        Command::Gateway(words) => Some(words),
        _ => None,
    }
}

/// Does what the arguments ask for, where nothing is written before all is read.
fn run_whole<F: Shelf, S: Source, K: Sink>(
    alloc: Global,
    arguments: &[String],
    shelf: &mut F,
    source: &mut S,
    out: &mut K,
) -> Ended
    requires { ReadsWhole (map string_bytes arguments.now) }
    ensures ends { Ends (map string_bytes arguments.now) (F.files shelf.old)
        (source.new ≡ source.old) (S.left source.old) (S.left source.new)
        (K.taken out.old) (K.taken out.new) result.status }
    ensures why { TellsWhy (WritesRefusal (HasReport (map string_bytes arguments.now)
        (F.files shelf.old) (source.new ≡ source.old) (S.left source.old) (S.left source.new))
        (K.taken out.old) (K.taken out.new)) result.status result.refusal }
    ensures refused { NoCommand (map string_bytes arguments.now)
        → (result.status ≡ Status.BadArguments)
        ⊎ ((result.status ≡ Status.WriteFault) ⊎ (result.status ≡ Status.OutOfMemory)) }
    ensures unread { ReadsNoInput (map string_bytes arguments.now) → source.new ≡ source.old }
    ensures unasked { NamesNoFile (map string_bytes arguments.now) → shelf.new ≡ shelf.old }
    ensures files { KeepsFiles (F.files shelf.old) (F.files shelf.new) }
    ensures few { ReadsFew (map string_bytes arguments.now)
        (S.left source.old) (S.left source.new) }
    ensures given { GivesFew (map string_bytes arguments.now)
        (S.given source.old) (S.given source.new) }
    ensures ended { S.ended source.old ≡ 0 → S.ended source.new ≤ 1 }
    ensures idle_reads { S.idle source.new ≤ S.idle source.old + 1 }
    ensures idle_writes { K.idle out.new ≤ K.idle out.old + 1 }
    ensures asked { AsksForNamed (map string_bytes arguments.now) result.refusal
        (F.asked shelf.old) (F.asked shelf.new) }
    ensures reached { ReachesNamed (map string_bytes arguments.now)
        (F.reached shelf.old) (F.reached shelf.new) }
    ensures reads { CountsReads (source.new ≡ source.old) result.status
        (F.faults shelf.old) (F.faults shelf.new) (S.faults source.old) (S.faults source.new) }
    ensures writes { CountsFaults Status.WriteFault result.status
        (K.faults out.old) (K.faults out.new) }
{
    match run_command(alloc, arguments, shelf, source) {
        Ok(outcome) => write_outcome(alloc, outcome, out),
        Err(stop) => end_stopped(alloc, stop, out),
    }
}

/// Does what the arguments ask for, over the files of the shelf and the bytes of the source, and
/// writes the outcome to the sink: the text that was asked for, or one line that begins `refused `
/// and ends with LF.
pub fn run<F: Shelf, S: Source, K: Sink>(
    alloc: Global,
    arguments: &[String],
    shelf: &mut F,
    source: &mut S,
    out: &mut K,
) -> Ended
    // What the sink took is the report of the arguments, the files and the input, by the status,
    // for each command that writes nothing before it has read all.
    ensures ends { ReadsWhole (map string_bytes arguments.now)
        → Ends (map string_bytes arguments.now) (F.files shelf.old)
        (source.new ≡ source.old) (S.left source.old) (S.left source.new)
        (K.taken out.old) (K.taken out.new) result.status }

    // What `gateway` wrote, item by item: the records of its stream, and then the refusal that is
    // told, if any.
    ensures gateway { WritesStream (map string_bytes arguments.now) (F.files shelf.old)
        (source.new ≡ source.old) (S.left source.old) (S.left source.new)
        (K.taken out.old) (K.taken out.new) result.status result.refusal }

    // A refusal is told where it is the outcome, or that of a stream, and its line was written, at
    // the statuses that only a refusal gives, and at no other.
    ensures why { TellsWhy (IsRefusedFor (map string_bytes arguments.now) (F.files shelf.old)
        (source.new ≡ source.old) (S.left source.old) (S.left source.new)
        (K.taken out.old) (K.taken out.new)) result.status result.refusal }

    // What these commands wrote tells what it was made of: equal bases have equal parameters and
    // values, labels that are accepted with one tag under one key agree, each label that was there
    // or is signed is there, each wish of a request is met in its response, what is rewritten under
    // a label keeps its signature and its base, two records that are explained agree on all that is
    // covered, a message and its list have the same values, what is kept at a hop has one base on
    // both sides of it, and a message that passes keeps the accepted signature, beside that of the
    // gateway; no nonce is accepted twice.
    ensures base { WritesOneBase (map string_bytes arguments.now) (F.files shelf.old)
        (S.left source.old) (K.taken out.old) (K.taken out.new) result.status }
    ensures verify { WritesVerdicts (map string_bytes arguments.now) (F.files shelf.old)
        (S.left source.old) (K.taken out.old) (K.taken out.new) result.status }
    ensures sign { WritesSigned (map string_bytes arguments.now) (F.files shelf.old)
        (S.left source.old) (K.taken out.old) (K.taken out.new) result.status }
    ensures negotiate { WritesNegotiated (map string_bytes arguments.now) (F.files shelf.old)
        (S.left source.old) (K.taken out.old) (K.taken out.new) result.status }
    ensures rewrite { WritesRewritten (map string_bytes arguments.now) (F.files shelf.old)
        (S.left source.old) (K.taken out.old) (K.taken out.new) result.status }
    ensures explain { WritesExplanation (map string_bytes arguments.now) (F.files shelf.old)
        (S.left source.old) (K.taken out.old) (K.taken out.new) result.status }
    ensures lists { WritesTurned (map string_bytes arguments.now) (F.files shelf.old)
        (S.left source.old) (K.taken out.old) (K.taken out.new) result.status }
    ensures audit { WritesOneChain (map string_bytes arguments.now) (F.files shelf.old)
        (S.left source.old) (K.taken out.old) (K.taken out.new) result.status }
    ensures passed { WritesPassed (map string_bytes arguments.now) (F.files shelf.old)
        (source.new ≡ source.old) (S.left source.old) (S.left source.new)
        (K.taken out.old) (K.taken out.new) result.status result.refusal }

    // Where the arguments are no command, or one without an input, the source isn't read, and where
    // they name no file, none is asked for. The files stay as they are.
    ensures refused { NoCommand (map string_bytes arguments.now)
        → (result.status ≡ Status.BadArguments)
        ⊎ ((result.status ≡ Status.WriteFault) ⊎ (result.status ≡ Status.OutOfMemory)) }
    ensures unread { ReadsNoInput (map string_bytes arguments.now) → source.new ≡ source.old }
    ensures unasked { NamesNoFile (map string_bytes arguments.now) → shelf.new ≡ shelf.old }
    ensures files { KeepsFiles (F.files shelf.old) (F.files shelf.new) }

    // At any status at most one byte past the limit is read of the input, unless it is a stream,
    // and of the files that the command names at most their limits together and one byte for each.
    // The source isn't read after its end, each read and each write but one of each moves a byte,
    // and at most so many files are asked for as are named: after one that is refused no other.
    ensures few { ReadsFew (map string_bytes arguments.now)
        (S.left source.old) (S.left source.new) }
    ensures given { GivesFew (map string_bytes arguments.now)
        (S.given source.old) (S.given source.new) }
    ensures ended { S.ended source.old ≡ 0 → S.ended source.new ≤ 1 }
    ensures idle_reads { S.idle source.new ≤ S.idle source.old + 1 }
    ensures idle_writes { K.idle out.new ≤ K.idle out.old + 1 }
    ensures asked { AsksForNamed (map string_bytes arguments.now) result.refusal
        (F.asked shelf.old) (F.asked shelf.new) }
    ensures reached { ReachesNamed (map string_bytes arguments.now)
        (F.reached shelf.old) (F.reached shelf.new) }

    // The counts of faults say when a read or a write failed.
    ensures reads { CountsReads (source.new ≡ source.old) result.status
        (F.faults shelf.old) (F.faults shelf.new) (S.faults source.old) (S.faults source.new) }
    ensures writes { CountsFaults Status.WriteFault result.status
        (K.faults out.old) (K.faults out.new) }
{
    match stream_words(arguments) {
        Some(words) => over_stream(alloc, &words, shelf, source, out),
        None => run_whole(alloc, arguments, shelf, source, out),
    }
}
