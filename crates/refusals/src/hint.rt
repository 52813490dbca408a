//! What is to be mended where a run is refused, said to whoever runs it. A person reads it, and no
//! script.

ghost use Rattle.std.specs.Prelude.{IsTrue};
ghost use Rattle.std.specs.List.{list_all};
ghost use Rattle.byte_grammar.specs.Classes.{is_line_byte};

use crate::file::FileRefusal;
use crate::hint_conf::conf_hint;
use crate::hint_fields::{fields_hint, from_message_hint, to_message_hint};
use crate::hint_wishes::wished_ids_hint;
use crate::refusal::{CommandRefusal, DigestRefusal, Refusal, StepRefusal};
use crate::role::Role;
use component_ids::{BadReason, IdFault};
use component_values::Lack;
use msg_body::{MessageError, MessageFault};
use msg_head::Side;
use normal_forms::{Basis, ExplainFault, FixedName};
use recording::RecordingFault;
use rewrite_script::ScriptFault;
use signing::{SignFault, WantFault};

/// Which option named the file that isn't there.
fn missing_hint(role: Role) -> &'static str
    ensures { IsTrue (list_all is_line_byte result.now) }
{
    match role {
        Role::Conf => "there is no file of the name after --conf",
        Role::Request => "there is no file of the name after --request",
        Role::Wanted => "there is no file of the name after --wanted",
        Role::Script => "there is no file of the name after --script",
        Role::Other => "there is no file of the name after --other",
        _ => "there is no such file",
    }
}

/// What a start line is, of the message that is due there.
fn start_hint(role: Role) -> &'static str
    ensures { IsTrue (list_all is_line_byte result.now) }
{
    match role {
        Role::Request => {
            "the file after --request has to begin with a request line of HTTP/1.1, `POST \
             /path HTTP/1.1`"
        }
        Role::Input | Role::Other => {
            "the message has to begin with a request line, `POST /path HTTP/1.1`, or a status \
             line, `HTTP/1.1 200 OK`; with --request a response is due, which has a status line"
        }
        _ => {
            "the message has to begin with a request line, `POST /path HTTP/1.1`, or, if it \
             is a response, with a status line, `HTTP/1.1 200 OK`"
        }
    }
}

/// What a field line, or the section that has it, is.
fn line_hint(side: Side) -> &'static str
    ensures { IsTrue (list_all is_line_byte result.now) }
{
    match side {
        Side::Header => {
            "the field line of that index, counted from 0 after the start line, isn't `Name: \
             value`: no space before the colon, and a name of letters, digits and \
             !#$%&'*+-.^_`|~"
        }
        Side::Trailer => {
            "the field line of that index, counted from 0 in the trailer section, isn't \
             `Name: value`: no space before the colon, and a name of letters, digits and \
             !#$%&'*+-.^_`|~"
        }
    }
}

/// What a message has to be, by what isn't right in it.
fn error_hint(role: Role, error: MessageError) -> &'static str
    ensures { IsTrue (list_all is_line_byte result.now) }
{
    match error {
        MessageError::Memory => "out of memory",
        MessageError::TooLong(_) => {
            "no empty line ends the head, or the trailer section, within that many bytes"
        }
        MessageError::NakedEnd(_) => {
            "at that offset is a NUL, a CR without LF, or a LF without CR: in a head each \
             line ends with CR LF (a recording, which begins `hms-recording 1`, is for audit)"
        }
        MessageError::BadStart => start_hint(role),
        MessageError::TooManyLines(_) => "there are more field lines than that",
        MessageError::BadLine(side, _) => line_hint(side),
        MessageError::FramingConflict => {
            "there are both Content-Length and Transfer-Encoding: which of them holds isn't \
             certain, so only one may stand"
        }
        MessageError::BadLength => "there has to be one line Content-Length, with 1 to 15 digits",
        MessageError::CodingRefused => {
            "there has to be one line Transfer-Encoding, with the value chunked and no other \
             coding, in HTTP/1.1"
        }
        MessageError::BadChunk(_) => {
            "by Transfer-Encoding: chunked each chunk is its size in hexadecimal, CR LF, its \
             bytes, CR LF, and the last size is 0; at that offset is something else (curl \
             takes chunks off, but for --raw)"
        }
        MessageError::ContentTooLong => "the content has more bytes than that",
    }
}

/// What a message has to be.
fn message_hint(role: Role, fault: MessageFault) -> &'static str
    ensures { IsTrue (list_all is_line_byte result.now) }
{
    match fault {
        MessageFault::Refused(error) => error_hint(role, error),
        MessageFault::Truncated(_) => {
            "after that many bytes the message isn't at its end: its head ends with an empty \
             line, each line with CR LF, and then come as many bytes as Content-Length says, \
             or chunks up to one of size 0"
        }
        MessageFault::Trailing(_) => {
            "the message ends at that offset, by its Content-Length or its chunks, and more \
             bytes come after it, as a line end that an editor added"
        }
    }
}

/// What a script has to be.
fn script_hint(fault: ScriptFault) -> &'static str
    ensures { IsTrue (list_all is_line_byte result.now) }
{
    match fault {
        ScriptFault::Memory => "out of memory",
        ScriptFault::TooMany => "there are more lines than that",
        ScriptFault::BadLine(_) => {
            "the line of that index, counted from 0, is no step: words with one space between \
             them, lines given by number, as `remove h 1`, and an LF at its end, without CR; \
             the steps are pad, fold, unfold, join, split, move, case, add, remove, rechunk, \
             chunk, dechunk, origin, absolute, host, query, resf and add-label"
        }
    }
}

/// What a recording has to be.
fn recording_hint(fault: RecordingFault) -> &'static str
    ensures { IsTrue (list_all is_line_byte result.now) }
{
    match fault {
        RecordingFault::Memory => "out of memory",
        RecordingFault::Syntax(_) => {
            "at that offset is something else than a recording has: a line `hms-recording 1`; \
             first `at SECONDS`, then `request N`, `response N`, `related N` and `script N`, \
             each with N bytes and LF after its line; last a line `end`; each line ends with \
             LF, without CR"
        }
        RecordingFault::ItemTooLong(_) => "the line of an item says more bytes than that",
        RecordingFault::MomentFalls(_) => {
            "the line `at` at that offset has an earlier moment than the one before it"
        }
    }
}

/// What a text that a run reads has to be.
fn file_hint(role: Role, refusal: &FileRefusal) -> &'static str
    ensures { IsTrue (list_all is_line_byte result.now) }
{
    match refusal {
        FileRefusal::Missing => missing_hint(role),
        FileRefusal::TooLong(_) => "there are more bytes than that",
        FileRefusal::Message(fault) => message_hint(role, *fault),
        FileRefusal::Conf(fault) => conf_hint(fault),
        FileRefusal::Script(fault) => script_hint(*fault),
        FileRefusal::Recording(fault) => recording_hint(*fault),
        FileRefusal::Order(_) => {
            "the item at that offset, or what comes after it, isn't in the order of a chain: `at`; \
             for responses perhaps `related`; a `request` or `response`; then for each hop perhaps \
             an `at`, a `script` of what was done there, and a message of the same kind"
        }
        FileRefusal::TooManyHops(_) => "there are more hops than that",
        FileRefusal::OutOfPlace(_) => {
            "an item isn't in its place: a stream has `at`, `request`, `response` and `related`, \
             and directly after a `related` comes the `response` to it; a `script` is for audit"
        }
        FileRefusal::TooManyItems(_) => "there are more items than that",
        FileRefusal::Fields(fault) => fields_hint(*fault),
    }
}

/// What an identifier of a component is.
fn reason_hint(reason: BadReason) -> &'static str
    ensures { IsTrue (list_all is_line_byte result.now) }
{
    match reason {
        BadReason::NotAString => {
            "the component of that index, counted from 0, isn't in double quotes: \
             (\"@method\" \"date\")"
        }
        BadReason::Name => {
            "no component has the name of that index, counted from 0: a field has its name in \
             lower case, and the others are @method, @target-uri, @authority, @scheme, \
             @request-target, @path, @query, @query-param and @status"
        }
        BadReason::ParameterUnknown => {
            "a parameter doesn't go with the component of that index, counted from 0: a field \
             takes sf, key, bs, req and tr, @query-param takes name, and all but @status take \
             req"
        }
        BadReason::ParameterType => {
            "a parameter of the component of that index, counted from 0, has a value of a \
             wrong type: key and name take a String, the others none"
        }
        BadReason::ParametersClash => {
            "the component of that index, counted from 0, has bs beside sf or key"
        }
        BadReason::NameMissing => {
            "the component of that index, counted from 0, lacks its name: \
             \"@query-param\";name=\"p\""
        }
    }
}

/// What signature parameters are.
fn ids_hint(fault: &IdFault) -> &'static str
    ensures { IsTrue (list_all is_line_byte result.now) }
{
    match fault {
        IdFault::Memory => "out of memory",
        IdFault::TooMany => "there are more than 128 components",
        IdFault::BadComponent(_, reason) => reason_hint(*reason),
        IdFault::Repeated(_) => { "the component of that index, counted from 0, is there twice" }
        IdFault::BadParameter(_) => {
            "created and expires are whole numbers, and nonce, alg, keyid and tag texts in \
             double quotes"
        }
    }
}

/// Why a component has no value.
fn lack_hint(lack: Lack) -> &'static str
    ensures { IsTrue (list_all is_line_byte result.now) }
{
    match lack {
        Lack::Absent => {
            "the message has no such field, member or query parameter; a component with req \
             is of the request, which --request names"
        }
        Lack::Ambiguous => "the message has it more than once",
        Lack::Underivable => {
            "a message of this kind has no such component (@status and req are of a response, the \
             other names with @ of a request), or its target or Host is of a form that gives none"
        }
        Lack::Unreadable => {
            "the field isn't known as structured, by `types` of the configuration, or isn't \
             of that kind"
        }
        Lack::NotAscii => "the field has bytes that aren't ASCII: cover it with bs",
    }
}

/// Why a message isn't signed.
fn sign_hint(fault: SignFault) -> &'static str
    ensures { IsTrue (list_all is_line_byte result.now) }
{
    match fault {
        SignFault::Memory => "out of memory",
        SignFault::InputMalformed => {
            "the message has a Signature-Input that is no Dictionary, or an empty one, so no \
             signature can be added"
        }
        SignFault::SignatureMalformed => {
            "the message has a Signature that is no Dictionary, or an empty one, so no signature \
             can be added"
        }
        SignFault::LabelThere => {
            "Signature-Input or Signature of the message has that label already: take it off, or \
             choose another, which is sign.label, or in Accept-Signature the name of the member"
        }
        SignFault::SelfCover(_) => {
            "the component of that index, counted from 0, is a field that the new signature \
             changes: cover the member of another label, as \"signature\";key=\"other\""
        }
        SignFault::TooLong(_) => "with the lines of the signature the message would be longer",
        SignFault::Lacks(_, lack) => lack_hint(lack),
    }
}

/// Why wishes for signatures aren't met.
fn want_hint(fault: &WantFault) -> &'static str
    ensures { IsTrue (list_all is_line_byte result.now) }
{
    match fault {
        WantFault::Memory => "out of memory",
        WantFault::Absent => {
            "the message after --wanted, or the request of negotiate, has no field \
             Accept-Signature, or an empty one: `Accept-Signature: sig1=(\"@method\");keyid=\"k\"`"
        }
        WantFault::Malformed => "Accept-Signature is no Dictionary (RFC 9421 section 5.1)",
        WantFault::NotInnerList(_) => {
            "the member of that index, counted from 0, is no list of components in parentheses"
        }
        WantFault::Ids(_, fault) => wished_ids_hint(fault),
        WantFault::Parameter(_) => {
            "in the member of that index, counted from 0, created and expires have no value, \
             nonce, alg, keyid and tag are texts in double quotes, and expires asks for \
             sign.expires-after"
        }
        WantFault::AlgRefused(_) => "hms signs with alg=\"hmac-sha256\" alone",
        WantFault::AlgUnknown(_) => "there is no such alg; hms signs with alg=\"hmac-sha256\"",
        WantFault::KeyUnknown(_) => "`keys` of the configuration has no key of that keyid",
    }
}

/// Why the digest that a request asks for isn't made.
fn digest_hint(cause: DigestRefusal) -> &'static str
    ensures { IsTrue (list_all is_line_byte result.now) }
{
    match cause {
        DigestRefusal::Malformed => {
            "Want-Content-Digest of the request is no Dictionary, or says something else than a \
             whole number from 0 to 10, as `Want-Content-Digest: sha-512=3, sha-256=10`"
        }
        DigestRefusal::Unacceptable => {
            "Want-Content-Digest of the request accepts neither sha-256 nor sha-512, with a number \
             from 1 to 10"
        }
        DigestRefusal::Unmet => {
            "the response has a Content-Digest that isn't that of its content, or not by the \
             algorithm that the request prefers: take it off"
        }
    }
}

/// Why a step isn't taken.
fn step_hint(cause: StepRefusal) -> &'static str
    ensures { IsTrue (list_all is_line_byte result.now) }
{
    match cause {
        StepRefusal::LabelUnread => {
            "the message that a step meets has no signature of that label that can be read"
        }
        StepRefusal::NotApplicable(_) => {
            "the step of that index, counted from 0, doesn't fit the message that it meets, \
             as where the line that it names isn't there; lines are counted from 0"
        }
        StepRefusal::NotPermitted(_) => {
            "the step of that index, counted from 0, changes what the label's signature covers"
        }
    }
}

/// What a field is whose lines differ.
fn name_hint(name: FixedName) -> &'static str
    ensures { IsTrue (list_all is_line_byte result.now) }
{
    match name {
        FixedName::Host => {
            "the two messages haven't the same lines Host in the header (h), or in the trailer \
             section (t): where a proxy put another Host, take a `host` step to it first; see \
             hms rewrite"
        }
        FixedName::ContentLength | FixedName::TransferEncoding => {
            "the two messages haven't the same lines of that name in the header (h), or in the \
             trailer section (t): where only one is in chunks, take a `chunk` or `dechunk` step \
             first; see hms rewrite"
        }
        FixedName::Signature | FixedName::SignatureInput => {
            "one of the two messages lacks that field in the header (h), or in the trailer \
             section (t), or has another value of it: a signature was added, changed or taken off"
        }
    }
}

/// In what two messages differ that aren't records of one message.
fn basis_hint(basis: Basis) -> &'static str
    ensures { IsTrue (list_all is_line_byte result.now) }
{
    match basis {
        Basis::StartLine => {
            "the start lines of the two messages differ: where it is the form of the target, \
             take an `absolute` or `origin` step first; see hms rewrite"
        }
        Basis::Content => {
            "the contents of the two messages differ, chunks taken off, so they aren't records \
             of one message"
        }
        Basis::Field { side: _, name } => name_hint(name),
    }
}

/// Why two messages aren't explained.
fn explain_hint(fault: ExplainFault) -> &'static str
    ensures { IsTrue (list_all is_line_byte result.now) }
{
    match fault {
        ExplainFault::Memory => "out of memory",
        ExplainFault::Unread => {
            "the input has no signature of that label that can be read; see hms verify"
        }
        ExplainFault::NotPlain(_) => {
            "the component of that index, counted from 0, is a field covered with sf or key; only \
             fields that are covered as they are, or with bs, are explained"
        }
        ExplainFault::OtherBasis(basis) => basis_hint(basis),
    }
}

/// Why a command isn't done.
fn command_hint(refusal: &CommandRefusal) -> &'static str
    ensures { IsTrue (list_all is_line_byte result.now) }
{
    match refusal {
        CommandRefusal::Syntax(_) => {
            "up to that offset PARAMS begin a list of components, each in double quotes, as \
             '(\"@method\" \"date\");created=1618884473' in one word"
        }
        CommandRefusal::Ids(fault) => ids_hint(fault),
        CommandRefusal::Lacks(lack, _) => lack_hint(*lack),
        CommandRefusal::Sign(fault) => sign_hint(*fault),
        CommandRefusal::Wishes(fault) => want_hint(fault),
        CommandRefusal::NotTaken(cause) => step_hint(*cause),
        CommandRefusal::Explain(fault) => explain_hint(*fault),
        CommandRefusal::ToMessage(fault) => to_message_hint(*fault),
        CommandRefusal::FromMessage(fault) => from_message_hint(*fault),
        CommandRefusal::Digest(cause) => digest_hint(*cause),
    }
}

impl Refusal {
    /// What is to be mended, in one line.
    pub fn hint(&self) -> &'static str
        ensures { IsTrue (list_all is_line_byte result.now) }
    {
        match self {
            Refusal::Arguments => "the arguments are no command; see hms --help",
            Refusal::Of(role, refusal) => file_hint(*role, refusal),
            Refusal::Command(refusal) => command_hint(refusal),
        }
    }
}
