//! The commands `--help` and `--version`, and the help of one command: texts of their own, for
//! which nothing is read.

ghost use Rattle.std.specs.Prelude.{◌≡◌, ◌++◌, IfOk, OnOk};
ghost use Rattle.std.specs.List.{flat_map};
ghost use Rattle.program.specs.Help.{text_of, ReportsHelp, ReportsHelpOf, ReportsVersion};

use command_line::CommandName;
use commands::Outcome;
use sfv_text::{Memory, Text};
use std::alloc::Global;

/// The version of the program.
pub const VERSION_TEXT: &str = "hms 0.1.0\n";

/// What the program is.
pub const TITLE_TEXT: &str =
    "hms: HTTP Message Signatures (RFC 9421) of recorded HTTP/1.1 messages\n";

/// What `verify` does.
pub const VERIFY_TEXT: &str = "
  hms verify --conf FILE --now SECONDS [--label LABEL] [--request REQ] < MESSAGE
      What the signatures of a message are worth: for each label, or for LABEL
      alone, the line `LABEL ok`, or the first rule that fails.
      FILE is the configuration: the keys, the policy, the structured fields.
      SECONDS is the moment of the verification, since 1970-01-01 00:00 UTC.

      hms verify --conf conf.toml --now \"$(date +%s)\" < signed.http
";

/// What `base` does.
pub const BASE_TEXT: &str = "
  hms base PARAMS [--conf FILE] [--request REQ] < MESSAGE
      The signature base over the components that PARAMS cover.

      hms base '(\"@method\" \"date\");created=1618884473' < signed.http
";

/// What `sign` does.
pub const SIGN_TEXT: &str = "
  hms sign --conf FILE --now SECONDS [--nonce NONCE | --wanted WISHES] [--request REQ] < MESSAGE
      The message with the signature that FILE asks for, or with those that
      `Accept-Signature` in WISHES, the file of a message, asks for.

      hms sign --conf conf.toml --now \"$(date +%s)\" < request.http
";

/// What `rewrite` does.
pub const REWRITE_TEXT: &str = "
  hms rewrite --script SCRIPT [--label LABEL] [--conf FILE] [--request REQ] < MESSAGE
      The message after the steps of SCRIPT, each a change that a proxy may make.
      With LABEL, each step has to be one that keeps what LABEL signs.

      hms rewrite --script steps.txt --label sig1 < signed.http
";

/// What `explain` does.
pub const EXPLAIN_TEXT: &str = "
  hms explain --label LABEL --other OTHER [--conf FILE] [--request REQ] < MESSAGE
      What proxies may have done between two records of one message, of which no
      script is known: the steps that lead MESSAGE, and those that lead the
      message in OTHER, to messages that are alike, each a change that keeps
      what LABEL signs; or the first field that LABEL covers and that differs.

      hms explain --label sig1 --other received.http < sent.http
";

/// What `audit` does.
pub const AUDIT_TEXT: &str = "
  hms audit --conf FILE < RECORDING
      What became of each signature along a recorded chain of messages: its
      verdict in each message, whether the script of each hop explains what came
      out, whether the signature permits that, and whether it is kept.

      hms audit --conf conf.toml < chain.rec
";

/// What `gateway` does.
pub const GATEWAY_TEXT: &str = "
  hms gateway --conf FILE < RECORDING
      What a gateway makes of each message of a recording, as it comes: it is
      verified, its nonce is remembered, the steps of FILE that its signature
      permits are taken, and it is signed by FILE. The line `pass`, with the
      message, `stop`, `held` or `bad` says which.

      hms gateway --conf gateway.toml < stream.rec
";

/// What `lists` does.
pub const LISTS_TEXT: &str = "
  hms lists --into message|fields [--conf FILE] < LIST
      LIST as a message of HTTP/1.1: LIST has the fields of a message of HTTP/2
      or HTTP/3 as they were recorded. With `--into fields`, the list of a
      message. FILE gives the scheme.

      hms lists --into message < fields.txt
";

/// What `negotiate` does.
pub const NEGOTIATE_TEXT: &str = "
  hms negotiate --conf FILE --now SECONDS --request REQ < RESPONSE
      RESPONSE signed as the request in REQ asks: with the signatures that its
      `Accept-Signature` asks for, and with the digest of the content that its
      `Want-Content-Digest` asks for.

      hms negotiate --conf conf.toml --now \"$(date +%s)\" --request request.http < response.http
";

/// What `sample` does.
pub const SAMPLE_TEXT: &str = "
  hms sample SEED COUNT
      The summary of the audit of a made chain: a request that is signed, and
      COUNT hops, at most 64, that are drawn from SEED. It reads nothing.

      hms sample 7 64
";

/// The words that aren't a command's, and the statuses.
pub const END_TEXT: &str = "
  With --request the message is a response, and REQ is the file of the request
  that it answers, from which components with `req` are drawn.

  hms --help
  hms --version

One whole message, recording or list is read from standard input. All output,
refusals included, goes to standard output.

  0  done                             5  a write failed
  1  a line says what isn't right     6  out of memory
  2  the arguments are no command     7  the configuration isn't accepted
  3  the input or the command refused 8  a limit is passed
  4  a read failed                    9  a named file is missing

The manual page is hms(1), the whole manual docs/MANUAL.md.
";

/// The commands, in the order of the help.
pub const COMMANDS: [CommandName; 10] = [
    CommandName::Verify,
    CommandName::Base,
    CommandName::Sign,
    CommandName::Rewrite,
    CommandName::Explain,
    CommandName::Audit,
    CommandName::Gateway,
    CommandName::Lists,
    CommandName::Negotiate,
    CommandName::Sample,
];

/// What a command does.
fn text_of(command: CommandName) -> &'static str
    ensures { result.now ≡ text_of command }
{
    match command {
        CommandName::Base => BASE_TEXT,
        CommandName::Verify => VERIFY_TEXT,
        CommandName::Sign => SIGN_TEXT,
        CommandName::Rewrite => REWRITE_TEXT,
        CommandName::Explain => EXPLAIN_TEXT,
        CommandName::Audit => AUDIT_TEXT,
        CommandName::Gateway => GATEWAY_TEXT,
        CommandName::Lists => LISTS_TEXT,
        CommandName::Negotiate => NEGOTIATE_TEXT,
        CommandName::Sample => SAMPLE_TEXT,
    }
}

/// Adds what these commands do.
fn append_commands(commands: &[CommandName], text: &mut Text) -> Result<(), Memory>
    ensures { OnOk result (text.new ≡ text.old ++ flat_map text_of commands.now) }
{
    for command in commands {
        text.append(text_of(*command).as_bytes())?;
    }
    Ok(())
}

/// The text of `--help`: what the program does, its words and its statuses.
pub fn help_outcome(alloc: Global) -> Result<Outcome, Memory>
    ensures { IfOk result ReportsHelp }
{
    let mut text = Text::from_bytes(alloc, TITLE_TEXT.as_bytes())?;
    append_commands(&COMMANDS, &mut text)?;
    text.append(END_TEXT.as_bytes())?;
    Ok(Outcome::Done(text))
}

/// The text of a command and `--help`.
pub fn write_help_of(alloc: Global, command: CommandName) -> Result<Outcome, Memory>
    ensures { IfOk result (ReportsHelpOf command) }
{
    let mut text = Text::from_bytes(alloc, TITLE_TEXT.as_bytes())?;
    text.append(text_of(command).as_bytes())?;
    Ok(Outcome::Done(text))
}

/// The text of `--version`.
pub fn version_outcome(alloc: Global) -> Result<Outcome, Memory>
    ensures { IfOk result ReportsVersion }
{
    Ok(Outcome::Done(Text::from_bytes(alloc, VERSION_TEXT.as_bytes())?))
}
