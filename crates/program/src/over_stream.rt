//! The command `gateway` over a configuration and a stream: the configuration is read, and then the
//! stream is served item by item. The record of each message is written before more is read.

ghost use Rattle.std.specs.Prelude.{◌≡◌, ◌+◌, ◌≤◌, Err, Some, IsSome};
ghost use Rattle.hms_io.specs.Files.{KeepsFiles};
ghost use Rattle.settings.specs.ConfMeaning.{meaning};
ghost use Rattle.settings.specs.declared.gateway_conf.GatewayConf.{GatewayConf};
ghost use Rattle.command_line.specs.Command.{gateway_words};
ghost use Rattle.refusals.specs.declared.refusal.Refusal.TheVariants.{Of};
ghost use Rattle.refusals.specs.declared.refusal.TheConstants.{MAX_CONF_BYTES};
ghost use Rattle.refusals.specs.declared.role.Role.TheVariants.{Input};
ghost use Rattle.gateway.specs.Served.{failed_writes};
ghost use Rattle.program.specs.Ends.{CountsFaults, CountsReads};
ghost use Rattle.program.specs.StreamEnds.{EndsRefused, EndsAfter, EndsServedBy, EndsStream, stream_refusal, stream_status};
ghost use Rattle.program.specs.tools.Parts.{CountsAfter};

use crate::ended::Ended;
use crate::entry::{end_stopped, write_outcome};
use crate::over_message::read_needed;
use command_line::GatewayWords;
use commands::Outcome;
use conf::Conf;
use gateway::{MAX_ITEMS, StreamFault, serve};
use hms_io::{Shelf, Sink, Source, Status};
use intake::Needs;
use refusals::{FileRefusal, Refusal, Role};
use std::alloc::Global;

/// What a stream that isn't served to its end is refused for.
fn end_refused<K: Sink>(alloc: Global, refusal: FileRefusal, out: &mut K) -> Ended
    ensures ends { EndsRefused (Of Input refusal) (K.taken out.old) (K.taken out.new)
        result.status result.refusal }
    ensures writes { CountsFaults Status.WriteFault result.status
        (K.faults out.old) (K.faults out.new) }
    ensures idle { K.idle out.new ≤ K.idle out.old + 1 }
{
    let refusal = Refusal::Of(Role::Input, refusal);
    write_outcome(alloc, Outcome::Refused(refusal), out)
}

/// How a run ends whose stream isn't served to its end. A refusal comes after the records.
fn end_unserved<K: Sink>(alloc: Global, fault: StreamFault, out: &mut K) -> Ended
    ensures ends { EndsAfter (stream_refusal fault) (stream_status (Err fault))
        (K.taken out.old) (K.taken out.new) result.status result.refusal }
    ensures writes { CountsAfter fault result.status (K.faults out.old) (K.faults out.new) }
    ensures idle { K.idle out.new + failed_writes (Err fault) ≤ K.idle out.old + 1 }
{
    match fault {
        StreamFault::Memory => Ended::of_status(Status::OutOfMemory),
        StreamFault::NotRead => Ended::of_status(Status::ReadFault),
        StreamFault::NotWritten => Ended::of_status(Status::WriteFault),
        StreamFault::Recording(fault) => end_refused(alloc, FileRefusal::Recording(fault), out),
        StreamFault::OutOfPlace(offset) => end_refused(alloc, FileRefusal::OutOfPlace(offset), out),
        StreamFault::TooManyItems => end_refused(alloc, FileRefusal::TooManyItems(MAX_ITEMS), out),
    }
}

/// Serves the stream that the source gives.
fn serve_source<S: Source, K: Sink>(
    alloc: Global,
    conf: &Conf,
    source: &mut S,
    out: &mut K,
) -> Ended
    requires sign { IsSome (meaning conf.now).sign }
    requires gateway { IsSome (meaning conf.now).gateway }
    ensures ends { (settings : GatewayConf) → (meaning conf.now).gateway ≡ Some settings
        → EndsServedBy (meaning conf.now) settings (S.left source.old) (S.left source.new)
        (K.taken out.old) (K.taken out.new) result.status result.refusal }
    ensures ended { S.ended source.old ≡ 0 → S.ended source.new ≤ 1 }
    ensures idle_reads { S.idle source.new ≤ S.idle source.old + 1 }
    ensures idle_writes { K.idle out.new ≤ K.idle out.old + 1 }
    ensures writes { CountsFaults Status.WriteFault result.status
        (K.faults out.old) (K.faults out.new) }
    ensures reads { CountsFaults Status.ReadFault result.status
        (S.faults source.old) (S.faults source.new) }
{
    match serve(alloc, conf, source, out) {
        Ok(true) => Ended::of_status(Status::Done),
        Ok(false) => Ended::of_status(Status::NotOk),
        Err(fault) => end_unserved(alloc, fault, out),
    }
}

/// Serves the stream that the source gives, by the named configuration.
pub(crate) fn over_stream<F: Shelf, S: Source, K: Sink>(
    alloc: Global,
    words: &GatewayWords<'_>,
    shelf: &mut F,
    source: &mut S,
    out: &mut K,
) -> Ended
    ensures ends { EndsStream (gateway_words words.now) (F.files shelf.old)
        (source.new ≡ source.old) (S.left source.old) (S.left source.new)
        (K.taken out.old) (K.taken out.new) result.status result.refusal }
    ensures files { KeepsFiles (F.files shelf.old) (F.files shelf.new) }
    ensures asked { F.asked shelf.new ≤ F.asked shelf.old + 1 }
    ensures reached { F.reached shelf.new ≤ F.reached shelf.old + (MAX_CONF_BYTES + 1) }
    ensures ended { S.ended source.old ≡ 0 → S.ended source.new ≤ 1 }
    ensures idle_reads { S.idle source.new ≤ S.idle source.old + 1 }
    ensures idle_writes { K.idle out.new ≤ K.idle out.old + 1 }
    ensures reads { CountsReads (source.new ≡ source.old) result.status
        (F.faults shelf.old) (F.faults shelf.new) (S.faults source.old) (S.faults source.new) }
    ensures writes { CountsFaults Status.WriteFault result.status
        (K.faults out.old) (K.faults out.new) }
{
    match read_needed(alloc, Needs::GatewayTables, Some(words.conf), shelf) {
        Ok(conf) => {
            let ended = serve_source(alloc, &conf, source, out);
            drop(conf);
            ended
        }
        Err(stop) => end_stopped(alloc, stop, out),
    }
}
