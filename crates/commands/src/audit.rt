//! The command `audit`: the report on a recorded chain of messages (RFC 9421 sections 1.1 and 3.2).

ghost use Rattle.std.specs.Prelude.{◌≤◌, length};
ghost use Rattle.conf.specs.ConfMeaning.{meaning};
ghost use Rattle.refusals.specs.declared.refusal.TheConstants.{MAX_RECORDING_BYTES};
ghost use Rattle.commands.specs.Audit.{ReportsAudit};
ghost use Rattle.commands.specs.Outcome.{IfOutcome, ReadsNothing};

use crate::outcome::Outcome;
use conf::Conf;
use hop_audit::{append_report, audit, finds_fault};
use intake::Stop;
use recording::read_recording;
use sfv_text::Text;
use std::alloc::Global;

/// The report on the chain that these bytes record, by the configuration.
pub fn audit_outcome(alloc: Global, conf: &Conf, input: &[u8]) -> Result<Outcome, Stop>
    requires { length input.now ≤ MAX_RECORDING_BYTES }
    ensures report { IfOutcome result (ReportsAudit (meaning conf.now) input.now) }
    ensures reads_nothing { ReadsNothing result }
{
    let recording = read_recording(alloc, input)?;
    let lines = audit(alloc, &recording, conf)?;
    let mut text = Text::new(alloc);
    append_report(alloc, lines.as_slice(), &mut text)?;
    Ok(if finds_fault(lines.as_slice()) {
        Outcome::NotOk(text)
    } else {
        Outcome::Done(text)
    })
}
