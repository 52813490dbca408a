//! A gateway over the recording that a source gives.

ghost use Rattle.std.specs.Prelude.{◌≡◌, ◌≤◌, ◌<◌, ◌+◌, Some, IsSome};
ghost use Rattle.recording.specs.Items.{placed};
ghost use Rattle.recording.specs.Readers.{nothing_read};
ghost use Rattle.settings.specs.ConfMeaning.{meaning};
ghost use Rattle.settings.specs.declared.gateway_conf.GatewayConf.{GatewayConf};
ghost use Rattle.gateway.specs.Served.{CountsSink, CountsSource, Serves, failed_writes};
ghost use Rattle.gateway.specs.tools.HeldStreams.{CanMeet, MeetsAndWrites, stream_held};

use crate::fault::StreamFault;
use crate::record_text::write_record;
use crate::stream::Stream;
use hms_io::{Sink, Source};
use nonces::Steps;
use recording::{Item, ItemReader};
use settings::Conf;
use std::alloc::Global;
use std::marker::Brand;
use std::sync::ledger::{Blank, Ledger};

/// Goes on by an item, and writes its record, if any. It answers whether the message passed.
fn serve_item<K: Sink, L: Ledger>(
    alloc: Global,
    stream: &mut Stream<'_>,
    item: Item<'_>,
    sink: &mut K,
    steps: &mut Steps<L>,
) -> Result<bool, StreamFault>
    requires { CanMeet stream.old (placed item) }
    ensures meets { (settings : GatewayConf) → stream.old.conf.gateway ≡ Some settings
        → MeetsAndWrites settings stream.old stream.new (placed item.entry)
        (K.taken sink.old) (K.taken sink.new) result }
    ensures faults { (settings : GatewayConf) → stream.old.conf.gateway ≡ Some settings
        → CountsSink (K.faults sink.old) (K.faults sink.new) result }
    ensures later { K.faults sink.old ≤ K.faults sink.new }
    ensures idle { K.idle sink.new ≤ K.idle sink.old + failed_writes result }
{
    match stream.meet(alloc, item, steps)? {
        Some(answer) => {
            let passes = write_record(alloc, &answer, sink);
            drop(answer); // by one call, and not part by part
            passes
        }
        None => Ok(true),
    }
}

/// Serves each item that the source gives to a stream of which none came.
fn serve_items<S: Source, K: Sink, L: Ledger>(
    alloc: Global,
    stream: &mut Stream<'_>,
    reader: &mut ItemReader,
    source: &mut S,
    sink: &mut K,
    blank: Blank,
) -> Result<bool, StreamFault>
    requires name { blank.name ≡ L.name }
    requires parts { blank.parts ≡ L.parts }
    requires some { 0 < blank.parts }
    requires begin { stream.old ≡ stream_held stream.old.conf }
    requires unread { reader.old ≡ nothing_read }
    requires gateway { IsSome stream.old.conf.gateway }
    ensures served { (settings : GatewayConf) → stream.old.conf.gateway ≡ Some settings
        → Serves stream.old.conf settings (S.left source.old) (S.left source.new)
        (K.taken sink.old) (K.taken sink.new) result }
    ensures source { CountsSource (S.faults source.old) (S.faults source.new) result }
    ensures sink { CountsSink (K.faults sink.old) (K.faults sink.new) result }
    ensures source_later { S.faults source.old ≤ S.faults source.new }
    ensures sink_later { K.faults sink.old ≤ K.faults sink.new }
    ensures ended { S.ended source.old ≡ 0 → S.ended source.new ≤ 1 }
    ensures idle_reads { S.idle source.new ≤ S.idle source.old + 1 }
    ensures idle_writes { K.idle sink.new ≤ K.idle sink.old + failed_writes result }
{
    let mut steps: Steps<L> = Steps::new(blank);
    let mut all_pass = true;
    'items: while reader.next(source)? {
        let passes = serve_item(alloc, stream, reader.item(), sink, &mut steps)?;
        all_pass = all_pass && passes;
    }
    stream.finish()?;
    Ok(all_pass)
}

/// Serves the recording that the source gives, item by item: the record of each message is written
/// before more is read. One item is held at a time, with the request that it answers. The answer is
/// whether each message passed.
pub fn serve<S: Source, K: Sink>(
    alloc: Global,
    conf: &Conf,
    source: &mut S,
    sink: &mut K,
) -> Result<bool, StreamFault>
    requires sign { IsSome (meaning conf.now).sign }
    requires gateway { IsSome (meaning conf.now).gateway }
    ensures served { (settings : GatewayConf) → (meaning conf.now).gateway ≡ Some settings
        → Serves (meaning conf.now) settings (S.left source.old) (S.left source.new)
        (K.taken sink.old) (K.taken sink.new) result }
    ensures source { CountsSource (S.faults source.old) (S.faults source.new) result }
    ensures sink { CountsSink (K.faults sink.old) (K.faults sink.new) result }
    ensures source_later { S.faults source.old ≤ S.faults source.new }
    ensures sink_later { K.faults sink.old ≤ K.faults sink.new }
    ensures ended { S.ended source.old ≡ 0 → S.ended source.new ≤ 1 }

    // Each read gives a byte but the last one, and each write takes one but one that failed.
    ensures idle_reads { S.idle source.new ≤ S.idle source.old + 1 }
    ensures idle_writes { K.idle sink.new ≤ K.idle sink.old + failed_writes result }
{
    let mut stream = Stream::open(alloc, conf)?;
    let mut reader = ItemReader::new(alloc);
    serve_items::<S, K, Brand>(alloc, &mut stream, &mut reader, source, sink, Blank::new(1))
}
