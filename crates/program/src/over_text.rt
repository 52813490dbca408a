//! Commands over a configuration and a text that is no message: the configuration is read, then the
//! source, and the command is done over what it gave.

ghost use Rattle.std.specs.Prelude.{◌≡◌, ◌+◌, ◌≤◌};
ghost use Rattle.conf.specs.ConfMeaning.{meaning};
ghost use Rattle.intake.specs.Files.{AreFound};
ghost use Rattle.intake.specs.Stops.{CountsStop};
ghost use Rattle.commands.specs.Outcome.{IfOutcome};
ghost use Rattle.program.specs.Commands.{Whole};
ghost use Rattle.program.specs.Ends.{HasInput, HasOutcome, Leaves};
ghost use Rattle.program.specs.Report.{ReportsConfigured};
ghost use Rattle.program.specs.tools.Parts.{Asks, AsksUntil, ReadsAtMost, UsesDevices, conf_names};

use command_line::{AuditWords, ListsWords};
use commands::{Outcome, audit_outcome, message_outcome};
use conf::Conf;
use hms_io::{Shelf, Source, fill};
use intake::{Stop, read_configuration};
use refusals::{MAX_INPUT_BYTES, MAX_RECORDING_BYTES};
use std::alloc::Global;

/// A command over a configuration and a text.
pub trait OverText {
    ghost use Rattle.std.specs.Prelude.{◌<◌, ◌≤◌, ℕ, List, Option, length, option_map};
    ghost use Rattle.hms_io.specs.declared.read_write.TheConstants.{MAX_LIMIT};
    ghost use Rattle.conf.specs.Configuration.{Configuration};
    ghost use Rattle.conf.specs.ConfMeaning.{meaning};
    ghost use Rattle.commands.specs.Outcome.{IfOutcome, ReadsNothing};
    ghost use Rattle.commands.specs.declared.outcome.Outcome.{Outcome};
    ghost use Rattle.program.specs.tools.Parts.{IsAfterText, too_long};

    // The name of the file of its configuration.
    ghost conf_name: { Self → Option (List ℕ) };

    // How many bytes the text has at most.
    ghost most: { Self → ℕ };

    // What it comes to, over a configuration and a text.
    ghost reports: { Self → Configuration → List ℕ → Outcome → Type 0 };

    /// The name of the file of its configuration.
    fn conf(&self) -> Option<&str>
        ensures { conf_name self.now ≡ option_map (λ word. word.now) result };

    /// How many bytes the text has at most. It is refused where it has more.
    fn limit(&self) -> usize
        ensures limit { result ≡ most self.now }
        ensures within { result ≤ MAX_LIMIT }
        ensures longer { (conf : Configuration) (text : List ℕ) → most self.now < length text
            → reports self.now conf text (too_long (most self.now)) };

    /// Does the command over the text. It reads nothing.
    fn answer(&self, alloc: Global, conf: &Conf, text: &[u8]) -> Result<Outcome, Stop>
        requires { length text.now ≤ most self.now }
        ensures report { IfOutcome result (reports self.now (meaning conf.now) text.now) }
        ensures after { IfOutcome result IsAfterText }
        ensures reads_nothing { ReadsNothing result };
}

impl<'a> OverText for AuditWords<'a> {
    ghost use Rattle.std.specs.Prelude.{Some};
    ghost use Rattle.commands.specs.Audit.{ReportsAudit};
    ghost use Rattle.refusals.specs.declared.refusal.TheConstants.{MAX_RECORDING_BYTES};

    ghost conf_name = { λ words. Some words.conf.now };

    ghost most = { λ words. MAX_RECORDING_BYTES };

    ghost reports = { λ words conf text. ReportsAudit conf text };

    fn conf(&self) -> Option<&str> {
        Some(self.conf)
    }

    fn limit(&self) -> usize {
        MAX_RECORDING_BYTES
    }

    fn answer(&self, alloc: Global, conf: &Conf, text: &[u8]) -> Result<Outcome, Stop> {
        audit_outcome(alloc, conf, text)
    }
}

impl<'a> OverText for ListsWords<'a> {
    ghost use Rattle.std.specs.Prelude.{option_map};
    ghost use Rattle.commands.specs.Lists.{ReportsIntoMessage};
    ghost use Rattle.refusals.specs.declared.refusal.TheConstants.{MAX_INPUT_BYTES};

    ghost conf_name = { λ words. option_map (λ word. word.now) words.conf };

    ghost most = { λ words. MAX_INPUT_BYTES };

    ghost reports = { λ words conf text. ReportsIntoMessage conf text };

    fn conf(&self) -> Option<&str> {
        self.conf
    }

    fn limit(&self) -> usize {
        MAX_INPUT_BYTES
    }

    fn answer(&self, alloc: Global, conf: &Conf, text: &[u8]) -> Result<Outcome, Stop> {
        message_outcome(alloc, conf, text)
    }
}

/// Does the command over what the source gives: reads it to its end, or one byte past the limit.
fn over_source<C: OverText, S: Source>(
    alloc: Global,
    command: &C,
    conf: &Conf,
    source: &mut S,
) -> Result<Outcome, Stop>
    ensures report { IfOutcome result (HasInput (C.reports command.now (meaning conf.now))
        (Leaves (Whole (C.most command.now)) (source.new ≡ source.old)
        (S.left source.old) (S.left source.new)) (S.left source.old)) }
    ensures cause { CountsStop (S.faults source.old) (S.faults source.new) result }
    ensures reads { ReadsAtMost S.left S.given S.ended S.idle S.faults
        (C.most command.now + 1) source.old source.new }
{
    let limit = command.limit();
    let input = match fill(alloc, source, limit) {
        Ok(input) => input,
        Err(error) => return Err(Stop::of_fill(limit, error)),
    };
    command.answer(alloc, conf, input.bytes())
}

/// Does the command over the named configuration and what the source gives.
pub fn over_text<C: OverText, F: Shelf, S: Source>(
    alloc: Global,
    command: &C,
    shelf: &mut F,
    source: &mut S,
) -> Result<Outcome, Stop>
    ensures report { IfOutcome result (HasOutcome
        (λ found input. ReportsConfigured (λ conf. C.reports command.now conf input)
        (conf_names (C.conf_name command.now)) found)
        (Leaves (Whole (C.most command.now)) (source.new ≡ source.old)
        (S.left source.old) (S.left source.new))
        (AreFound (F.files shelf.old) (conf_names (C.conf_name command.now)))
        (S.left source.old)) }
    ensures uses { UsesDevices F.faults S.left S.given S.ended S.idle S.faults
        (C.most command.now + 1) result shelf.old shelf.new source.old source.new }
    ensures asks { Asks (conf_names (C.conf_name command.now))
        (F.files shelf.old) (F.files shelf.new)
        (F.asked shelf.old) (F.asked shelf.new) (F.reached shelf.old) (F.reached shelf.new)
        (shelf.new ≡ shelf.old) }
    ensures asked { AsksUntil (conf_names (C.conf_name command.now)) result
        (F.asked shelf.old) (F.asked shelf.new) }
{
    let conf = read_configuration(alloc, command.conf(), shelf)?;
    let answer = over_source(alloc, command, &conf, source);
    drop(conf);
    answer
}
