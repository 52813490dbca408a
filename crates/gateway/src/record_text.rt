//! The text of a record. Each function adds its part at the end of the line.

ghost use Rattle.std.specs.Prelude.{◌≡◌, ◌≤◌, ◌+◌, ◌++◌, IfOk, IsTrue, OnOk};
ghost use Rattle.gateway.specs.Records.{is_pass};
ghost use Rattle.gateway.specs.RecordTexts.{bad_text, held_text, is_held_in_range, is_record_in_range, record_line, record_text};
ghost use Rattle.gateway.specs.Served.{CountsSink, failed_writes};
ghost use Rattle.gateway.specs.tools.HeldStreams.{WritesText};

use crate::fault::StreamFault;
use crate::gateway_record::{BadFault, GatewayRecord, HeldFault};
use component_ids::print_id;
use hms_io::{Sink, put_all};
use sfv_text::{Memory, Text, append_number, append_words};
use std::alloc::Global;
use verdicts::append_verdict_line;

fn append_held(alloc: Global, fault: &HeldFault, line: &mut Text) -> Result<(), Memory>
    requires { IsTrue (is_held_in_range fault.now) }
    ensures { OnOk result (line.new ≡ line.old ++ held_text fault.now) }
{
    match fault {
        HeldFault::Sign(fault) => {
            let text = format!(in alloc; "{fault}")?;
            line.append(text.as_bytes())
        }
        HeldFault::Lacks(lack, id) => {
            let id = print_id(alloc, id)?;
            line.append(lack.word().as_bytes())?;
            append_words(b" ", id.bytes(), line)
        }
        HeldFault::Covered => line.append(b"covered"),
    }
}

fn append_bad(alloc: Global, fault: BadFault, line: &mut Text) -> Result<(), Memory>
    ensures { OnOk result (line.new ≡ line.old ++ bad_text fault) }
{
    match fault {
        BadFault::Related => line.append(b"related"),
        BadFault::Message(fault) => {
            let text = format!(in alloc; "{fault}")?;
            line.append(text.as_bytes())
        }
    }
}

/// Appends the line of a record. That of a message that passes says how many bytes come after it.
fn append_line(alloc: Global, answer: &GatewayRecord, line: &mut Text) -> Result<(), Memory>
    requires { IsTrue (is_record_in_range answer.now) }
    ensures { OnOk result (line.new ≡ line.old ++ record_line answer.now) }
{
    match answer {
        GatewayRecord::Pass {
            index,
            label,
            message,
        } => {
            append_number(alloc, b"pass ", *index, line)?;
            append_words(b" ", label.bytes(), line)?;
            append_number(alloc, b" ", message.bytes().len(), line)?;
            line.append(b"\n")
        }
        GatewayRecord::Stop {
            index,
            label,
            verdict,
        } => {
            append_number(alloc, b"stop ", *index, line)?;
            line.append(b" ")?;
            append_verdict_line(alloc, label.bytes(), verdict, line)
        }
        GatewayRecord::Held { index, fault } => {
            append_number(alloc, b"held ", *index, line)?;
            line.append(b" ")?;
            append_held(alloc, fault, line)?;
            line.append(b"\n")
        }
        GatewayRecord::Bad { index, fault } => {
            append_number(alloc, b"bad ", *index, line)?;
            line.append(b" ")?;
            append_bad(alloc, *fault, line)?;
            line.append(b"\n")
        }
    }
}

/// Writes the record, and answers whether the message passes. Out of memory nothing is written.
pub(crate) fn write_record<K: Sink>(
    alloc: Global,
    answer: &GatewayRecord,
    sink: &mut K,
) -> Result<bool, StreamFault>
    requires { IsTrue (is_record_in_range answer.now) }
    ensures writes { WritesText (record_text answer.now) (K.taken sink.old) (K.taken sink.new)
        result }
    ensures passes { IfOk result (λ passes. passes ≡ is_pass answer.now) }
    ensures faults { CountsSink (K.faults sink.old) (K.faults sink.new) result }
    ensures later { K.faults sink.old ≤ K.faults sink.new }
    ensures idle { K.idle sink.new ≤ K.idle sink.old + failed_writes result }
{
    let mut line = Text::new(alloc);
    append_line(alloc, answer, &mut line)?;
    put_all(sink, line.bytes())?;
    if let GatewayRecord::Pass { message, .. } = answer {
        put_all(sink, message.bytes())?;
        put_all(sink, b"\n")?;
    }
    Ok(answer.is_pass())
}
