//! Of `hop_audit`: the report on a chain of two hops. The first changes the case of a name that is
//! covered, as its script says; the second changes the value, and its script says nothing.

ghost use Rattle.std.specs.Prelude.{All, IsTrue};
ghost use Rattle.recording.specs.Items.{IsShort};
ghost use Rattle.recording.specs.Recordings.{AreItems, bodies};
ghost use Rattle.hop_audit.specs.Lines.{are_lines_in_range};

use crate::given::conf_of;
use conf::Conf;
use hop_audit::{AuditLine, append_report, audit, finds_fault};
use recording::{Recording, read_recording};
use sfv_text::Text;
use std::alloc::Global;

const RECORDING: &[u8] = b"hms-recording 1\n\
at 5\n\
request 97\n\
GET / HTTP/1.1\r\n\
Date: x\r\n\
Signature-Input: a=(\"date\");created=5;keyid=\"k\"\r\n\
Signature: a=:AAAA:\r\n\
\r\n\n\
script 14\n\
case h 0 DATE\n\n\
request 97\n\
GET / HTTP/1.1\r\n\
DATE: x\r\n\
Signature-Input: a=(\"date\");created=5;keyid=\"k\"\r\n\
Signature: a=:AAAA:\r\n\
\r\n\n\
at 7\n\
script 0\n\n\
request 97\n\
GET / HTTP/1.1\r\n\
DATE: y\r\n\
Signature-Input: a=(\"date\");created=5;keyid=\"k\"\r\n\
Signature: a=:AAAA:\r\n\
\r\n\n\
end\n";

const REPORT: &[u8] = b"message 0 a rule 16 key-unknown\n\
hop 1 explained\n\
hop 1 a permitted kept\n\
message 1 a rule 16 key-unknown\n\
hop 2 unexplained\n\
hop 2 a not-permitted changed \"date\"\n\
message 2 a rule 16 key-unknown\n";

// Whether the lines are the report.
fn is_report(alloc: Global, lines: &[AuditLine]) -> bool
    requires { IsTrue (are_lines_in_range lines.now) }
{
    let mut text = Text::new(alloc);
    append_report(alloc, lines, &mut text).is_ok() && text.bytes() == REPORT && finds_fault(lines)
}

fn is_audited(alloc: Global, recording: &Recording<'_>, conf: &Conf) -> bool
    requires are { AreItems (bodies recording.now) }
    requires short { All IsShort (bodies recording.now) }
{
    match audit(alloc, recording, conf) {
        Ok(lines) => is_report(alloc, lines.as_slice()),
        Err(_) => false,
    }
}

fn is_audited_by(alloc: Global, conf: &Conf) -> bool {
    match read_recording(alloc, RECORDING) {
        Ok(recording) => is_audited(alloc, &recording, conf),
        Err(_) => false,
    }
}

fn is_reported(alloc: Global) -> bool {
    match conf_of(alloc, b"") {
        Some(given) => is_audited_by(alloc, &given.conf),
        None => false,
    }
}

#[test]
fn a_chain_of_two_hops_is_reported(rt: HostRuntime) {
    assert!(rt; is_reported(rt.alloc()));
}
