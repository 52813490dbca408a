//! The arguments of the program.

ghost use Rattle.std.specs.Prelude.{◌≡◌, ◌∷◌, [], drop, false, None, map, codes, IfSome, IfNone, string_bytes};
ghost use Rattle.command_line.specs.Command.{HasRightNonce, IsCommand, NoCommand, SpellsAudit, SpellsBase, SpellsExplain, SpellsGateway, SpellsLists, SpellsNegotiate, SpellsRewrite, SpellsSample, SpellsSign, SpellsVerify, line_of, IsTimely};
ghost use Rattle.command_line.specs.Command.{AuditWords as AuditLine, BaseWords as BaseLine, ExplainWords as ExplainLine, GatewayWords as GatewayLine, ListsWords as ListsLine, NegotiateWords as NegotiateLine, RewriteWords as RewriteLine, SampleWords as SampleLine, SignWords as SignLine, VerifyWords as VerifyLine};
ghost use Rattle.command_options.specs.Names.{command_of, command_word};
ghost use Rattle.command_line.specs.tools.Wrong.{asks_help};
ghost use Rattle.command_line.specs.tools.After.{IsAfter, NoneAfter};

use command_options::{CommandName, OptionWords, count_of, number_of, read_options, seed_of};

/// The words of `base`. They are borrowed.
#[derive(Clone, Copy)]
pub struct BaseWords<'a> {
    /// An Inner List as a member of a `Signature-Input` field is (RFC 9421 section 4.1).
    pub params: &'a str,
    /// The file of the configuration.
    pub conf: Option<&'a str>,
    /// The file of the request that the input answers.
    pub request: Option<&'a str>,
}

/// The words of `verify`. They are borrowed.
#[derive(Clone, Copy)]
pub struct VerifyWords<'a> {
    /// The file of the configuration.
    pub conf: &'a str,
    /// The moment, in seconds since the epoch, at most 999,999,999,999,999.
    pub now: u64,
    /// The label that is asked for, or all that the message has.
    pub label: Option<&'a str>,
    /// The file of the request that the input answers.
    pub request: Option<&'a str>,
}

/// The words of `sign`. They are borrowed.
#[derive(Clone, Copy)]
pub struct SignWords<'a> {
    /// The file of the configuration.
    pub conf: &'a str,
    /// The moment, in seconds since the epoch, at most 999,999,999,999,999.
    pub now: u64,
    /// The file of the request that the input answers.
    pub request: Option<&'a str>,
    /// The nonce of the signature (RFC 9421 section 2.3). There is none beside `wanted`.
    pub nonce: Option<&'a str>,
    /// The file of the message that asks for signatures (RFC 9421 section 5.1).
    pub wanted: Option<&'a str>,
}

/// The words of `rewrite`. They are borrowed.
#[derive(Clone, Copy)]
pub struct RewriteWords<'a> {
    /// The file of the script.
    pub script: &'a str,
    /// The file of the configuration.
    pub conf: Option<&'a str>,
    /// The label whose signature has to permit each step, or any step may be taken.
    pub label: Option<&'a str>,
    /// The file of the request that the input answers.
    pub request: Option<&'a str>,
}

/// The words of `explain`. They are borrowed.
#[derive(Clone, Copy)]
pub struct ExplainWords<'a> {
    /// The label whose signature has to permit each rewriting.
    pub label: &'a str,
    /// The file of the other record of the message.
    pub other: &'a str,
    /// The file of the configuration.
    pub conf: Option<&'a str>,
    /// The file of the request that both records answer.
    pub request: Option<&'a str>,
}

/// The words of `audit`. They are borrowed.
#[derive(Clone, Copy)]
pub struct AuditWords<'a> {
    /// The file of the configuration.
    pub conf: &'a str,
}

/// The words of `gateway`. They are borrowed.
#[derive(Clone, Copy)]
pub struct GatewayWords<'a> {
    /// The file of the configuration.
    pub conf: &'a str,
}

/// The words of `lists`. They are borrowed.
#[derive(Clone, Copy)]
pub struct ListsWords<'a> {
    /// Whether a list is turned into a message, or a message into a list.
    pub into_message: bool,
    /// The file of the configuration.
    pub conf: Option<&'a str>,
}

/// The words of `negotiate`. They are borrowed.
#[derive(Clone, Copy)]
pub struct NegotiateWords<'a> {
    /// The file of the configuration.
    pub conf: &'a str,
    /// The moment, in seconds since the epoch, at most 999,999,999,999,999.
    pub now: u64,
    /// The file of the request that the input answers, and that asks for signatures.
    pub request: &'a str,
}

/// The words of `sample`: what its digits write.
#[derive(Clone, Copy)]
pub struct SampleWords {
    /// From which the sample is drawn, below 1,000,000,000.
    pub seed: u64,
    /// How many hops it has, at most 64.
    pub count: usize,
}

/// What the arguments ask for.
#[derive(Clone, Copy)]
pub enum Command<'a> {
    /// `--help`, or `help`: what the program does.
    Help,
    /// The name of a command and `--help`, or `help` and that name: what the command does.
    HelpOf(CommandName),
    /// `--version`: its version.
    Version,
    /// `base PARAMS`: the signature base over the components that PARAMS cover (RFC 9421 section
    /// 2.5).
    Base(BaseWords<'a>),
    /// `verify`: what the signatures of a message are worth (RFC 9421 section 3.2).
    Verify(VerifyWords<'a>),
    /// `sign`: the message with signatures (RFC 9421 section 3.1).
    Sign(SignWords<'a>),
    /// `rewrite`: the message after the steps of a script (RFC 9421 section 1.1).
    Rewrite(RewriteWords<'a>),
    /// `explain`: the rewritings that a signature permits and that lead two records of one message
    /// to messages that are alike, or what differs (RFC 9421 section 1.1).
    Explain(ExplainWords<'a>),
    /// `audit`: what became of the signatures of a recorded chain of messages, hop by hop.
    Audit(AuditWords<'a>),
    /// `gateway`: what a gateway makes of each message of a stream (RFC 9421 sections 3.1 and 3.2).
    Gateway(GatewayWords<'a>),
    /// `lists`: the message of a recorded list of fields, or the list of a message (RFC 9113
    /// section 8.3, RFC 9114 section 4.3).
    Lists(ListsWords<'a>),
    /// `negotiate`: the response with the signatures that its request asks for (RFC 9421 section
    /// 5, RFC 9530 section 4).
    Negotiate(NegotiateWords<'a>),
    /// `sample SEED COUNT`: the summary of the report on a chain of COUNT hops that is drawn from
    /// SEED.
    Sample(SampleWords),
}

/// The arguments after the program's name.
pub fn after_name(arguments: &[String]) -> &[String]
    ensures { result.now ≡ drop 1 arguments.now }
{
    match arguments {
        [] => &[],
        [_, after @ ..] => after,
    }
}

/// The first word, and those after it.
pub fn first_of(words: &[String]) -> Option<(&str, &[String])>
    ensures some { IfSome result (λ parts. map string_bytes words.now
        ≡ parts.0.now ∷ map string_bytes parts.1.now) }
    ensures none { IfNone result (map string_bytes words.now ≡ []) }
{
    match words {
        [] => None,
        [first, others @ ..] => Some((first.as_str(), others)),
    }
}

/// Whether the words are `--help` alone.
fn asks_help(words: &[String]) -> bool
    ensures { result ≡ asks_help (map string_bytes words.now) }
{
    match words {
        [word] => word.as_str() == "--help",
        _ => false,
    }
}

/// The words after `help`.
fn read_help_word<'a>(words: &'a [String]) -> Option<Command<'a>>
    ensures some { IfSome result
        (λ command. IsAfter (codes "help") (map string_bytes words.now) (line_of command)) }
    ensures none { IfNone result (NoneAfter (codes "help") (map string_bytes words.now)) }
{
    let Some((name, others)) = first_of(words) else {
        return Some(Command::Help);
    };
    let command = CommandName::of_word(name)?;
    match first_of(others) {
        None => Some(Command::HelpOf(command)),
        Some(_) => None,
    }
}

/// The words after `--help`.
fn read_help<'a>(words: &'a [String]) -> Option<Command<'a>>
    ensures some { IfSome result
        (λ command. IsAfter (codes "--help") (map string_bytes words.now) (line_of command)) }
    ensures none { IfNone result (NoneAfter (codes "--help") (map string_bytes words.now)) }
{
    if words.is_empty() {
        Some(Command::Help)
    } else {
        None
    }
}

/// The words after `--version`.
fn read_version<'a>(words: &'a [String]) -> Option<Command<'a>>
    ensures some { IfSome result
        (λ command. IsAfter (codes "--version") (map string_bytes words.now) (line_of command)) }
    ensures none { IfNone result (NoneAfter (codes "--version") (map string_bytes words.now)) }
{
    if words.is_empty() {
        Some(Command::Version)
    } else {
        None
    }
}

/// The words after `base`.
fn read_base<'a>(words: &'a [String]) -> Option<Command<'a>>
    requires { asks_help (map string_bytes words.now) ≡ false }
    ensures some { IfSome result
        (λ command. IsAfter (codes "base") (map string_bytes words.now) (line_of command)) }
    ensures none { IfNone result ((base : BaseLine)
        → ¬ SpellsBase (codes "base" ∷ map string_bytes words.now) base) }
{
    let Some((params, others)) = first_of(words) else {
        return None;
    };
    let Some(OptionWords { conf, request, .. }) = read_options(CommandName::Base, others) else {
        return None;
    };
    Some(Command::Base(BaseWords {
        params,
        conf,
        request,
    }))
}

/// The words after `verify`.
fn read_verify<'a>(words: &'a [String]) -> Option<Command<'a>>
    ensures some { IfSome result
        (λ command. IsAfter (codes "verify") (map string_bytes words.now) (line_of command)) }
    ensures none { IfNone result ((verify : VerifyLine)
        → ¬ SpellsVerify (codes "verify" ∷ map string_bytes words.now) verify) }
{
    let Some(
        OptionWords {
            conf: Some(conf),
            now: Some(now),
            label,
            request,
            ..
        },
    ) = read_options(CommandName::Verify, words)
    else {
        return None;
    };
    Some(Command::Verify(VerifyWords {
        conf,
        now: number_of(now),
        label,
        request,
    }))
}

/// The words after `sign`.
fn read_sign<'a>(words: &'a [String]) -> Option<Command<'a>>
    ensures some { IfSome result
        (λ command. IsAfter (codes "sign") (map string_bytes words.now) (line_of command)) }
    ensures none { IfNone result ((sign : SignLine)
        → ¬ SpellsSign (codes "sign" ∷ map string_bytes words.now) sign) }
{
    let Some(
        OptionWords {
            conf: Some(conf),
            now: Some(now),
            request,
            nonce,
            wanted,
            ..
        },
    ) = read_options(CommandName::Sign, words)
    else {
        return None;
    };
    if nonce.is_some() && wanted.is_some() {
        return None;
    }
    Some(Command::Sign(SignWords {
        conf,
        now: number_of(now),
        request,
        nonce,
        wanted,
    }))
}

/// The words after `rewrite`.
fn read_rewrite<'a>(words: &'a [String]) -> Option<Command<'a>>
    ensures some { IfSome result
        (λ command. IsAfter (codes "rewrite") (map string_bytes words.now) (line_of command)) }
    ensures none { IfNone result ((rewrite : RewriteLine)
        → ¬ SpellsRewrite (codes "rewrite" ∷ map string_bytes words.now) rewrite) }
{
    let Some(
        OptionWords {
            script: Some(script),
            conf,
            label,
            request,
            ..
        },
    ) = read_options(CommandName::Rewrite, words)
    else {
        return None;
    };
    Some(Command::Rewrite(RewriteWords {
        script,
        conf,
        label,
        request,
    }))
}

/// The words after `explain`.
fn read_explain<'a>(words: &'a [String]) -> Option<Command<'a>>
    ensures some { IfSome result
        (λ command. IsAfter (codes "explain") (map string_bytes words.now) (line_of command)) }
    ensures none { IfNone result ((explain : ExplainLine)
        → ¬ SpellsExplain (codes "explain" ∷ map string_bytes words.now) explain) }
{
    let Some(
        OptionWords {
            label: Some(label),
            other: Some(other),
            conf,
            request,
            ..
        },
    ) = read_options(CommandName::Explain, words)
    else {
        return None;
    };
    Some(Command::Explain(ExplainWords {
        label,
        other,
        conf,
        request,
    }))
}

/// The words after `audit`.
fn read_audit<'a>(words: &'a [String]) -> Option<Command<'a>>
    ensures some { IfSome result
        (λ command. IsAfter (codes "audit") (map string_bytes words.now) (line_of command)) }
    ensures none { IfNone result ((audit : AuditLine)
        → ¬ SpellsAudit (codes "audit" ∷ map string_bytes words.now) audit) }
{
    let Some(
        OptionWords {
            conf: Some(conf),
            ..
        },
    ) = read_options(CommandName::Audit, words)
    else {
        return None;
    };
    Some(Command::Audit(AuditWords { conf }))
}

/// The words after `gateway`.
fn read_gateway<'a>(words: &'a [String]) -> Option<Command<'a>>
    ensures some { IfSome result
        (λ command. IsAfter (codes "gateway") (map string_bytes words.now) (line_of command)) }
    ensures none { IfNone result ((gateway : GatewayLine)
        → ¬ SpellsGateway (codes "gateway" ∷ map string_bytes words.now) gateway) }
{
    let Some(
        OptionWords {
            conf: Some(conf),
            ..
        },
    ) = read_options(CommandName::Gateway, words)
    else {
        return None;
    };
    Some(Command::Gateway(GatewayWords { conf }))
}

/// The words after `lists`.
fn read_lists<'a>(words: &'a [String]) -> Option<Command<'a>>
    ensures some { IfSome result
        (λ command. IsAfter (codes "lists") (map string_bytes words.now) (line_of command)) }
    ensures none { IfNone result ((lists : ListsLine)
        → ¬ SpellsLists (codes "lists" ∷ map string_bytes words.now) lists) }
{
    let Some(
        OptionWords {
            into: Some(into),
            conf,
            ..
        },
    ) = read_options(CommandName::Lists, words)
    else {
        return None;
    };
    Some(Command::Lists(ListsWords {
        into_message: into == "message",
        conf,
    }))
}

/// The words after `negotiate`.
fn read_negotiate<'a>(words: &'a [String]) -> Option<Command<'a>>
    ensures some { IfSome result
        (λ command. IsAfter (codes "negotiate") (map string_bytes words.now) (line_of command)) }
    ensures none { IfNone result ((negotiate : NegotiateLine)
        → ¬ SpellsNegotiate (codes "negotiate" ∷ map string_bytes words.now) negotiate) }
{
    let Some(
        OptionWords {
            conf: Some(conf),
            now: Some(now),
            request: Some(request),
            ..
        },
    ) = read_options(CommandName::Negotiate, words)
    else {
        return None;
    };
    Some(Command::Negotiate(NegotiateWords {
        conf,
        now: number_of(now),
        request,
    }))
}

/// The words after `sample`.
fn read_sample<'a>(words: &'a [String]) -> Option<Command<'a>>
    ensures some { IfSome result
        (λ command. IsAfter (codes "sample") (map string_bytes words.now) (line_of command)) }
    ensures none { IfNone result ((sample : SampleLine)
        → ¬ SpellsSample (codes "sample" ∷ map string_bytes words.now) sample) }
{
    let [seed, count] = words else {
        return None;
    };
    match (seed_of(seed.as_str()), count_of(count.as_str())) {
        (Some(seed), Some(count)) => Some(Command::Sample(SampleWords { seed, count })),
        _ => None,
    }
}

/// The words after the name of a command.
fn read_command<'a>(command: CommandName, words: &'a [String]) -> Option<Command<'a>>
    ensures some { IfSome result
        (λ line. IsAfter (command_word command) (map string_bytes words.now) (line_of line)) }
    ensures none { IfNone result (NoneAfter (command_word command) (map string_bytes words.now)) }
{
    if asks_help(words) {
        return Some(Command::HelpOf(command));
    }
    match command {
        CommandName::Base => read_base(words),
        CommandName::Verify => read_verify(words),
        CommandName::Sign => read_sign(words),
        CommandName::Rewrite => read_rewrite(words),
        CommandName::Explain => read_explain(words),
        CommandName::Audit => read_audit(words),
        CommandName::Gateway => read_gateway(words),
        CommandName::Lists => read_lists(words),
        CommandName::Negotiate => read_negotiate(words),
        CommandName::Sample => read_sample(words),
    }
}

/// The words after a name that is no command's.
fn read_other<'a>(name: &str, words: &'a [String]) -> Option<Command<'a>>
    requires { command_of name.now ≡ None }
    ensures some { IfSome result
        (λ command. IsAfter name.now (map string_bytes words.now) (line_of command)) }
    ensures none { IfNone result (NoneAfter name.now (map string_bytes words.now)) }
{
    if name == "--help" {
        return read_help(words);
    }
    if name == "--version" {
        return read_version(words);
    }
    if name == "help" {
        return read_help_word(words);
    }
    None
}

/// The words after a name.
fn read_named<'a>(name: &str, words: &'a [String]) -> Option<Command<'a>>
    ensures some { IfSome result
        (λ command. IsAfter name.now (map string_bytes words.now) (line_of command)) }
    ensures none { IfNone result (NoneAfter name.now (map string_bytes words.now)) }
{
    match CommandName::of_word(name) {
        Some(command) => read_command(command, words),
        None => read_other(name, words),
    }
}

/// Reads the arguments after the program's name. It takes no memory.
pub fn read_words(words: &[String]) -> Option<Command<'_>>
    ensures some { IfSome result
        (λ command. IsCommand (map string_bytes words.now) (line_of command)) }
    ensures none { IfNone result (NoCommand (map string_bytes words.now)) }
    ensures timely { IfSome result (λ command. IsTimely (line_of command)) }
    ensures nonce { IfSome result (λ command. HasRightNonce (line_of command)) }
{
    match words {
        [] => None,
        [name, others @ ..] => read_named(name.as_str(), others),
    }
}
