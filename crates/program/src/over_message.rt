//! Commands over a configuration and one whole message, and their steps: the configuration is read,
//! then the request that the message answers, the message that wishes signatures, the script, the
//! other record of the message, the source, and its message; the context is made, and the command
//! is done over all of them. What is large is dropped by a call, so that its drop is proved once.

ghost use Rattle.std.specs.Prelude.{◌≡◌, ◌≤◌, ◌+◌, [], ◌∷◌, None, Option, IfOk, IfErr, IsTrue, length, option_map};
ghost use Rattle.std.specs.List.{list_all};
ghost use Rattle.hms_io.specs.Files.{FileMap};
ghost use Rattle.component_values.specs.Context.{HasWholeMessage};
ghost use Rattle.conf.specs.ConfMeaning.{meaning};
ghost use Rattle.msg_body.specs.Views.{message_of};
ghost use Rattle.intake.specs.Files.{Conf as ConfFile, HasFound, Other, Request, file_names};
ghost use Rattle.intake.specs.Stops.{IfStopped, IsRefusalFor, CountsStop};
ghost use Rattle.commands.specs.Outcome.{IfOutcome, ReadsNothing};
ghost use Rattle.intake.specs.Tables.{HasTables};
ghost use Rattle.refusals.specs.declared.refusal.TheConstants.{MAX_CONF_BYTES};
ghost use Rattle.refusals.specs.declared.refusal.Refusal.TheVariants.{Of};
ghost use Rattle.refusals.specs.declared.role.Role.TheVariants.{Conf as OfConf};
ghost use Rattle.rewrite_script.specs.Lines.{is_writable};
ghost use Rattle.program.specs.Commands.{Whole};
ghost use Rattle.program.specs.Ends.{HasInput, Leaves};
ghost use Rattle.program.specs.Intake.{IsConfLacking, IsConfRead, names_of, read_order, taken_of};
ghost use Rattle.program.specs.tools.Parts.{Asks, AsksOne, AsksRest, AsksUntil, HasConf, HasFilesOutcome, HasOther, HasRequest, HasRequested, IsAfterInput, IsOwn, ReadsAtMost, ReportsMessage, ReportsRecord, UsesDevices, roles_read, values_of};

use command_line::{
    BaseWords, ExplainWords, ListsWords, NegotiateWords, RewriteWords, SignWords, VerifyWords,
};
use commands::{
    Outcome, base_outcome, context_for, explain_outcome, list_outcome, negotiate_outcome,
    rewrite_outcome, sign_outcome, verify_outcome, wished_outcome,
};
use conf::Conf;
use hms_io::{Shelf, Source, fill};
use intake::{
    FileWords, FilesRead, Needs, Reading, Stop, Taken, check_tables, fetch_message,
    fetched_message, message_of_role, read_configuration, read_script_file,
};
use msg_body::MessageView;
use refusals::{MAX_INPUT_BYTES, Role};
use std::alloc::Global;

/// A command over a configuration and one whole message.
pub trait OverMessage {
    ghost use Rattle.intake.specs.Files.{FileNames};
    ghost use Rattle.commands.specs.declared.outcome.Outcome.{Outcome};
    ghost use Rattle.intake.specs.declared.tables.Needs.{Needs};
    ghost use Rattle.program.specs.Intake.{TakenValues};

    // Its words are in their ranges.
    ghost is_in_range: { Self → Type 0 };

    // The files that it names.
    ghost names: { Self → FileNames };

    // What it needs of the configuration.
    ghost tables: { Self → Needs };

    // What it comes to, over what was read for it.
    ghost reports: { Self → TakenValues → Outcome → Type 0 };

    /// The files that it names.
    fn files<'s>(&'s self) -> FileWords<'s>
        ensures { names self.now ≡ names_of result };

    /// What it needs of the configuration.
    fn needs(&self) -> Needs
        ensures { result ≡ tables self.now };

    /// Does the command over what was read for it. It reads nothing.
    fn answer(&self, alloc: Global, taken: &Taken<'_>) -> Result<Outcome, Stop>
        requires in_range { is_in_range self.now }
        requires tables { HasTables (tables self.now) (taken_of taken.now).conf }
        requires writable { IsTrue (list_all is_writable (taken_of taken.now).script) }
        requires whole { HasWholeMessage (taken_of taken.now).context }
        requires requested { HasRequested (names self.now Request)
            (taken_of taken.now).context.related }
        requires other { HasOther (names self.now Other) (taken_of taken.now).context.related
            (taken_of taken.now).other }
        ensures report { IfOutcome result (reports self.now (taken_of taken.now)) }
        ensures own { IfOutcome result IsOwn }
        ensures reads_nothing { ReadsNothing result };
}

/// The names of these files, and of no other.
fn conf_and_request<'a>(conf: Option<&'a str>, request: Option<&'a str>) -> FileWords<'a>
    ensures { file_names (option_map (λ word. word.now) conf.entry)
        (option_map (λ word. word.now) request.entry) None None None ≡ names_of result }
{
    FileWords {
        conf,
        request,
        wanted: None,
        script: None,
        other: None,
    }
}

impl<'a> OverMessage for BaseWords<'a> {
    ghost use Rattle.std.specs.Prelude.{⊤, None, option_map};
    ghost use Rattle.commands.specs.Base.{ReportsBase};
    ghost use Rattle.intake.specs.Files.{file_names};
    ghost use Rattle.intake.specs.declared.tables.Needs.TheVariants.{Nothing};

    ghost is_in_range = { λ words. ⊤ };

    ghost names = { λ words. file_names (option_map (λ word. word.now) words.conf)
        (option_map (λ word. word.now) words.request) None None None };

    ghost tables = { λ words. Nothing };

    ghost reports = { λ words taken. ReportsBase words.params.now taken.context };

    fn files<'s>(&'s self) -> FileWords<'s> {
        conf_and_request(self.conf, self.request)
    }

    fn needs(&self) -> Needs {
        Needs::Nothing
    }

    fn answer(&self, alloc: Global, taken: &Taken<'_>) -> Result<Outcome, Stop> {
        base_outcome(alloc, self.params.as_bytes(), taken.context)
    }
}

impl<'a> OverMessage for VerifyWords<'a> {
    ghost use Rattle.std.specs.Prelude.{◌<◌, ◌^◌, None, Some, option_map};
    ghost use Rattle.command_options.specs.declared.options.TheConstants.{MAX_MOMENT_DIGITS};
    ghost use Rattle.intake.specs.Files.{file_names};
    ghost use Rattle.commands.specs.Verify.{ReportsVerdicts};
    ghost use Rattle.intake.specs.declared.tables.Needs.TheVariants.{Nothing};

    ghost is_in_range = { λ words. words.now < 10 ^ MAX_MOMENT_DIGITS };

    ghost names = { λ words. file_names (Some words.conf.now)
        (option_map (λ word. word.now) words.request) None None None };

    ghost tables = { λ words. Nothing };

    ghost reports = { λ words taken. ReportsVerdicts (option_map (λ word. word.now) words.label)
        words.now taken.conf taken.context };

    fn files<'s>(&'s self) -> FileWords<'s> {
        conf_and_request(Some(self.conf), self.request)
    }

    fn needs(&self) -> Needs {
        Needs::Nothing
    }

    fn answer(&self, alloc: Global, taken: &Taken<'_>) -> Result<Outcome, Stop> {
        Ok(verify_outcome(alloc, taken.conf, self.now, self.label, taken.context)?)
    }
}

impl<'a> OverMessage for SignWords<'a> {
    ghost use Rattle.std.specs.Prelude.{◌<◌, ◌^◌, None, Some, option_map, IfSome, IsTrue};
    ghost use Rattle.command_options.specs.Options.{is_nonce};
    ghost use Rattle.command_options.specs.declared.options.TheConstants.{MAX_MOMENT_DIGITS};
    ghost use Rattle.intake.specs.Files.{file_names};
    ghost use Rattle.commands.specs.Sign.{ReportsSigning};
    ghost use Rattle.intake.specs.declared.tables.Needs.TheVariants.{SignTable};

    ghost is_in_range = { λ words. (words.now < 10 ^ MAX_MOMENT_DIGITS)
        × IfSome (option_map (λ word. word.now) words.nonce) (λ nonce. IsTrue (is_nonce nonce)) };

    ghost names = { λ words. file_names (Some words.conf.now)
        (option_map (λ word. word.now) words.request)
        (option_map (λ word. word.now) words.wanted) None None };

    ghost tables = { λ words. SignTable };

    ghost reports = { λ words taken. ReportsSigning (option_map (λ word. word.now) words.nonce)
        words.now taken.conf taken.wishes taken.context };

    fn files<'s>(&'s self) -> FileWords<'s> {
        FileWords {
            conf: Some(self.conf),
            request: self.request,
            wanted: self.wanted,
            script: None,
            other: None,
        }
    }

    fn needs(&self) -> Needs {
        Needs::SignTable
    }

    fn answer(&self, alloc: Global, taken: &Taken<'_>) -> Result<Outcome, Stop> {
        match taken.wishes {
            None => sign_outcome(alloc, taken.conf, self.now, self.nonce, taken.context),
            Some(wishes) => wished_outcome(alloc, taken.conf, self.now, wishes, taken.context),
        }
    }
}

impl<'a> OverMessage for RewriteWords<'a> {
    ghost use Rattle.std.specs.Prelude.{⊤, None, Some, option_map};
    ghost use Rattle.intake.specs.Files.{file_names};
    ghost use Rattle.commands.specs.Rewrite.{ReportsRewriting};
    ghost use Rattle.intake.specs.declared.tables.Needs.TheVariants.{Nothing};

    ghost is_in_range = { λ words. ⊤ };

    ghost names = { λ words. file_names (option_map (λ word. word.now) words.conf)
        (option_map (λ word. word.now) words.request) None (Some words.script.now) None };

    ghost tables = { λ words. Nothing };

    ghost reports = { λ words taken. ReportsRewriting (option_map (λ word. word.now) words.label)
        taken.script taken.context };

    fn files<'s>(&'s self) -> FileWords<'s> {
        FileWords {
            conf: self.conf,
            request: self.request,
            wanted: None,
            script: Some(self.script),
            other: None,
        }
    }

    fn needs(&self) -> Needs {
        Needs::Nothing
    }

    fn answer(&self, alloc: Global, taken: &Taken<'_>) -> Result<Outcome, Stop> {
        rewrite_outcome(alloc, self.label, taken.script, taken.context)
    }
}

impl<'a> OverMessage for ExplainWords<'a> {
    ghost use Rattle.std.specs.Prelude.{⊤, IsSomeAnd, None, Some, option_map};
    ghost use Rattle.commands.specs.Explain.{ReportsExplanation};
    ghost use Rattle.intake.specs.Files.{file_names};
    ghost use Rattle.intake.specs.declared.tables.Needs.TheVariants.{Nothing};

    ghost is_in_range = { λ words. ⊤ };

    ghost names = { λ words. file_names (option_map (λ word. word.now) words.conf)
        (option_map (λ word. word.now) words.request) None None (Some words.other.now) };

    ghost tables = { λ words. Nothing };

    ghost reports = { λ words taken outcome. IsSomeAnd taken.other (λ other.
        ReportsExplanation words.label.now other taken.context outcome) };

    fn files<'s>(&'s self) -> FileWords<'s> {
        FileWords {
            conf: self.conf,
            request: self.request,
            wanted: None,
            script: None,
            other: Some(self.other),
        }
    }

    fn needs(&self) -> Needs {
        Needs::Nothing
    }

    fn answer(&self, alloc: Global, taken: &Taken<'_>) -> Result<Outcome, Stop> {
        match taken.other {
            Some(other) => explain_outcome(alloc, self.label, other, taken.context),
            // the file of the other record has a name
            None => unreachable!(),
        }
    }
}

impl<'a> OverMessage for ListsWords<'a> {
    ghost use Rattle.std.specs.Prelude.{⊤, None, option_map};
    ghost use Rattle.intake.specs.Files.{file_names};
    ghost use Rattle.commands.specs.Lists.{ReportsIntoFields};
    ghost use Rattle.intake.specs.declared.tables.Needs.TheVariants.{Nothing};

    ghost is_in_range = { λ words. ⊤ };

    ghost names = { λ words. file_names (option_map (λ word. word.now) words.conf)
        None None None None };

    ghost tables = { λ words. Nothing };

    ghost reports = { λ words taken. ReportsIntoFields taken.context };

    fn files<'s>(&'s self) -> FileWords<'s> {
        conf_and_request(self.conf, None)
    }

    fn needs(&self) -> Needs {
        Needs::Nothing
    }

    fn answer(&self, alloc: Global, taken: &Taken<'_>) -> Result<Outcome, Stop> {
        list_outcome(alloc, taken.context)
    }
}

impl<'a> OverMessage for NegotiateWords<'a> {
    ghost use Rattle.std.specs.Prelude.{◌<◌, ◌^◌, None, Some};
    ghost use Rattle.command_options.specs.declared.options.TheConstants.{MAX_MOMENT_DIGITS};
    ghost use Rattle.intake.specs.Files.{file_names};
    ghost use Rattle.commands.specs.Negotiate.{ReportsNegotiation};
    ghost use Rattle.intake.specs.declared.tables.Needs.TheVariants.{SignTable};

    ghost is_in_range = { λ words. words.now < 10 ^ MAX_MOMENT_DIGITS };

    ghost names = { λ words. file_names (Some words.conf.now) (Some words.request.now)
        None None None };

    ghost tables = { λ words. SignTable };

    ghost reports = { λ words taken. ReportsNegotiation words.now taken.conf taken.context };

    fn files<'s>(&'s self) -> FileWords<'s> {
        conf_and_request(Some(self.conf), Some(self.request))
    }

    fn needs(&self) -> Needs {
        Needs::SignTable
    }

    fn answer(&self, alloc: Global, taken: &Taken<'_>) -> Result<Outcome, Stop> {
        negotiate_outcome(alloc, taken.conf, self.now, taken.context)
    }
}

/// Does the command over the input, which has to be one whole message: a response to the request,
/// or, where none is known, a message of either kind.
fn over_input<'x, C: OverMessage>(
    alloc: Global,
    command: &C,
    files: FilesRead<'x>,
    other: Option<&'x MessageView<'x>>,
    input: &'x [u8],
) -> Result<Outcome, Stop>
    requires in_range { C.is_in_range command.now }
    requires tables { HasTables (C.tables command.now) (values_of files).conf }
    requires writable { IsTrue (list_all is_writable (values_of files).script) }
    requires requested { HasRequested (C.names command.now Request) (values_of files).related }
    requires other { HasOther (C.names command.now Other) (values_of files).related
        (option_map (λ view. message_of view.now) other) }
    requires short { length input.now ≤ MAX_INPUT_BYTES }
    ensures report { IfOutcome result
        (ReportsMessage (C.reports command.now) (values_of files.entry)
        (option_map (λ view. message_of view.now) other.entry) input.now) }
    ensures after { IfOutcome result IsAfterInput }
    ensures reads_nothing { ReadsNothing result }
{
    let reading = Reading::of_input(files.related);
    let message = message_of_role(alloc, reading, Role::Input, input)?;
    let context = context_for(files.conf, &message, files.related);
    let taken = Taken {
        conf: files.conf,
        wishes: files.wishes,
        script: files.script,
        other,
        context: &context,
    };
    let answer = command.answer(alloc, &taken);
    drop(message);
    answer
}

/// Does the command over what the source gives: reads it to its end, or one byte past the limit.
fn over_source<C: OverMessage, S: Source>(
    alloc: Global,
    command: &C,
    files: FilesRead<'_>,
    other: Option<&MessageView<'_>>,
    source: &mut S,
) -> Result<Outcome, Stop>
    requires in_range { C.is_in_range command.now }
    requires tables { HasTables (C.tables command.now) (values_of files).conf }
    requires writable { IsTrue (list_all is_writable (values_of files).script) }
    requires requested { HasRequested (C.names command.now Request) (values_of files).related }
    requires other { HasOther (C.names command.now Other) (values_of files).related
        (option_map (λ view. message_of view.now) other) }
    ensures report { IfOutcome result (HasInput
        (ReportsMessage (C.reports command.now) (values_of files.entry)
        (option_map (λ view. message_of view.now) other.entry))
        (Leaves (Whole MAX_INPUT_BYTES) (source.new ≡ source.old)
        (S.left source.old) (S.left source.new)) (S.left source.old)) }
    ensures cause { CountsStop (S.faults source.old) (S.faults source.new) result }
    ensures reads { ReadsAtMost S.left S.given S.ended S.idle S.faults
        (MAX_INPUT_BYTES + 1) source.old source.new }
    ensures late { IfOutcome result (λ outcome. roles_read outcome ≡ read_order) }
{
    let input = match fill(alloc, source, MAX_INPUT_BYTES) {
        Ok(input) => input,
        Err(error) => return Err(Stop::of_fill(MAX_INPUT_BYTES, error)),
    };
    over_input(alloc, command, files, other, input.bytes())
}

/// Does the command over the other record of the message, in the named file, where one is named,
/// and then over what the source gives. The record answers the same request as the input.
fn over_record<C: OverMessage, F: Shelf, S: Source>(
    alloc: Global,
    command: &C,
    files: FilesRead<'_>,
    name: Option<&str>,
    shelf: &mut F,
    source: &mut S,
) -> Result<Outcome, Stop>
    requires in_range { C.is_in_range command.now }
    requires tables { HasTables (C.tables command.now) (values_of files).conf }
    requires writable { IsTrue (list_all is_writable (values_of files).script) }
    requires requested { HasRequested (C.names command.now Request) (values_of files).related }
    requires named { C.names command.now Other ≡ option_map (λ word. word.now) name }
    ensures report { IfOutcome result (λ outcome.
        HasFound (F.files shelf.old) (option_map (λ word. word.now) name.entry) (λ found.
        HasInput (ReportsRecord (C.reports command.now) (values_of files.entry)
        (option_map (λ word. word.now) name.entry) found)
        (Leaves (Whole MAX_INPUT_BYTES) (source.new ≡ source.old)
        (S.left source.old) (S.left source.new)) (S.left source.old) outcome)) }
    ensures uses { UsesDevices F.faults S.left S.given S.ended S.idle S.faults (MAX_INPUT_BYTES + 1)
        result shelf.old shelf.new source.old source.new }
    ensures asks { AsksOne F.files F.asked F.reached (MAX_INPUT_BYTES + 1) name.entry
        shelf.old shelf.new }
    ensures late { IfOutcome result (λ outcome. roles_read outcome ≡ read_order) }
{
    let text = fetch_message(alloc, Role::Other, name, shelf)?;
    let reading = Reading::of_input(files.related);
    let other = fetched_message(alloc, Role::Other, reading, text.as_ref())?;
    over_source(alloc, command, files, other.as_ref(), source)
}

/// Does the command over the message that asks for signatures and the script, in the named files,
/// and then over the other record of the message and what the source gives.
fn over_wishes<C: OverMessage, F: Shelf, S: Source>(
    alloc: Global,
    command: &C,
    conf: &Conf,
    related: Option<&MessageView<'_>>,
    shelf: &mut F,
    source: &mut S,
) -> Result<Outcome, Stop>
    requires in_range { C.is_in_range command.now }
    requires tables { HasTables (C.tables command.now) (meaning conf.now) }
    requires requested { HasRequested (C.names command.now Request)
        (option_map (λ view. message_of view.now) related) }
    ensures report { (first : Option FileMap) → HasRequest (C.tables command.now)
        (C.names command.now) first (F.files shelf.old) (meaning conf.now)
        (option_map (λ view. message_of view.now) related.entry)
        → IfOutcome result (HasFilesOutcome (C.tables command.now) (C.reports command.now)
        (C.names command.now) first (source.new ≡ source.old)
        (S.left source.old) (S.left source.new)) }
    ensures uses { UsesDevices F.faults S.left S.given S.ended S.idle S.faults (MAX_INPUT_BYTES + 1)
        result shelf.old shelf.new source.old source.new }
    ensures asks { AsksRest F.files F.asked F.reached (C.names command.now)
        (ConfFile ∷ Request ∷ []) result shelf.old shelf.new }
{
    let names = command.files();
    let wanted = fetch_message(alloc, Role::Wanted, names.wanted, shelf)?;
    let wishes = fetched_message(alloc, Role::Wanted, Reading::of_any(), wanted.as_ref())?;
    let script = read_script_file(alloc, names.script, shelf)?;
    let files = FilesRead {
        conf,
        related,
        wishes: wishes.as_ref(),
        script: script.as_slice(),
    };
    let answer = over_record(alloc, command, files, names.other, shelf, source);
    drop(wishes);
    answer
}

/// Does the command over the request that the input answers, in the named file, and then over the
/// other files and what the source gives.
fn over_request<C: OverMessage, F: Shelf, S: Source>(
    alloc: Global,
    command: &C,
    conf: &Conf,
    shelf: &mut F,
    source: &mut S,
) -> Result<Outcome, Stop>
    requires in_range { C.is_in_range command.now }
    requires tables { HasTables (C.tables command.now) (meaning conf.now) }
    ensures report { (first : Option FileMap) → HasConf (C.tables command.now)
        (C.names command.now) first (F.files shelf.old) (meaning conf.now)
        → IfOutcome result (HasFilesOutcome (C.tables command.now) (C.reports command.now)
        (C.names command.now) first (source.new ≡ source.old)
        (S.left source.old) (S.left source.new)) }
    ensures uses { UsesDevices F.faults S.left S.given S.ended S.idle S.faults (MAX_INPUT_BYTES + 1)
        result shelf.old shelf.new source.old source.new }
    ensures asks { AsksRest F.files F.asked F.reached (C.names command.now)
        (ConfFile ∷ []) result shelf.old shelf.new }
{
    let names = command.files();
    let request = fetch_message(alloc, Role::Request, names.request, shelf)?;
    let reading = Reading::of_request();
    let related = fetched_message(alloc, Role::Request, reading, request.as_ref())?;
    let answer = over_wishes(alloc, command, conf, related.as_ref(), shelf, source);
    drop(related);
    answer
}

/// Reads the configuration in the named file, or that of the empty text, and refuses one that lacks
/// what is needed.
pub(crate) fn read_needed<F: Shelf>(
    alloc: Global,
    needs: Needs,
    name: Option<&str>,
    shelf: &mut F,
) -> Result<Conf, Stop>
    ensures ok { IfOk result (λ conf.
        HasFound (F.files shelf.old) (option_map (λ word. word.now) name.entry) (λ found.
        IsConfRead needs (option_map (λ word. word.now) name.entry) found (meaning conf))) }
    ensures refused { IfErr result (λ stop. IfStopped stop (λ refusal.
        HasFound (F.files shelf.old) (option_map (λ word. word.now) name.entry) (λ found.
        IsRefusalFor (IsConfLacking needs (option_map (λ word. word.now) name.entry) found)
        (λ cause. Of OfConf cause) refusal))) }
    ensures cause { CountsStop (F.faults shelf.old) (F.faults shelf.new) result }
    ensures later { F.faults shelf.old ≤ F.faults shelf.new }
    ensures asks { AsksOne F.files F.asked F.reached (MAX_CONF_BYTES + 1) name.entry
        shelf.old shelf.new }
{
    let conf = read_configuration(alloc, name, shelf)?;
    match check_tables(alloc, needs, &conf) {
        Ok(()) => Ok(conf),
        Err(stop) => {
            drop(conf);
            Err(stop)
        }
    }
}

/// Does the command over the files that it names and what the source gives: the configuration, the
/// request that the input answers, the message that asks for signatures, the script, and the other
/// record of the message, in this order, and then the input.
pub fn over_message<C: OverMessage, F: Shelf, S: Source>(
    alloc: Global,
    command: &C,
    shelf: &mut F,
    source: &mut S,
) -> Result<Outcome, Stop>
    requires { C.is_in_range command.now }
    ensures report { IfOutcome result (HasFilesOutcome (C.tables command.now)
        (C.reports command.now) (C.names command.now) (F.files shelf.old)
        (source.new ≡ source.old) (S.left source.old) (S.left source.new)) }
    ensures uses { UsesDevices F.faults S.left S.given S.ended S.idle S.faults (MAX_INPUT_BYTES + 1)
        result shelf.old shelf.new source.old source.new }
    ensures asks { Asks (C.names command.now) (F.files shelf.old) (F.files shelf.new)
        (F.asked shelf.old) (F.asked shelf.new) (F.reached shelf.old) (F.reached shelf.new)
        (shelf.new ≡ shelf.old) }
    ensures asked { AsksUntil (C.names command.now) result (F.asked shelf.old) (F.asked shelf.new) }
{
    let names = command.files();
    let conf = read_needed(alloc, command.needs(), names.conf, shelf)?;
    let answer = over_request(alloc, command, &conf, shelf, source);
    drop(conf);
    answer
}
