//! Refusals: why a run is refused, the status that this gives, and the one line that says so.

ghost use Rattle.std.specs.Prelude.{◌≡◌, IfOk};
ghost use Rattle.refusals.specs.Refusal.{command_status, refusal_line, refusal_status, sign_status, to_status};

use crate::file::FileRefusal;
use crate::refusal_text::append_refusal;
use crate::role::Role;
use component_ids::IdFault;
use component_values::Lack;
use field_lists::{FromFault, ToFault};
use hms_io::Status;
use normal_forms::ExplainFault;
use sfv_text::{Memory, Text};
use signing::{SignFault, WantFault};
use std::alloc::Global;

/// The most bytes of an input that is one message, and of a file that is one.
pub const MAX_INPUT_BYTES: usize = 16_777_216;

/// The most bytes of an input that is a recording.
pub const MAX_RECORDING_BYTES: usize = 67_108_864;

/// The most bytes of a configuration.
pub const MAX_CONF_BYTES: usize = 65_536;

/// Why a run is refused.
#[derive(Drop)]
pub enum Refusal {
    /// The arguments are no command.
    Arguments,
    /// A text that the command reads isn't accepted.
    Of(Role, FileRefusal),
    /// The command can't be done over what it has read.
    Command(CommandRefusal),
}

/// Why a command is refused.
#[derive(Drop)]
pub enum CommandRefusal {
    /// PARAMS are no Inner List (RFC 9651 section 3.1.1): the longest prefix that begins one has so
    /// many bytes.
    Syntax(usize),
    /// PARAMS are no signature parameters (RFC 9421 section 2.3). The fault is never out of memory.
    Ids(IdFault),
    /// The first covered component without a value, and how it lacks it. The text is that of its
    /// identifier, quotes and parameters included.
    Lacks(Lack, Text),
    /// The message isn't signed (RFC 9421 section 3.1). The fault is neither out of memory nor that
    /// a component lacks a value, which `Lacks` says with its identifier.
    Sign(SignFault),
    /// The wishes for signatures aren't met (RFC 9421 section 5). The fault is never out of memory.
    Wishes(WantFault),
    /// A step of the script isn't taken.
    NotTaken(StepRefusal),
    /// The two records of a message aren't explained. The fault is never out of memory.
    Explain(ExplainFault),
    /// A list of fields is turned into no message. The fault is never out of memory.
    ToMessage(ToFault),
    /// The message is turned into no list of fields. The fault is never out of memory.
    FromMessage(FromFault),
    /// The digest that a request asks for isn't made (RFC 9530 section 4).
    Digest(DigestRefusal),
}

/// Why a step of a script isn't taken.
#[derive(Clone, Copy, PartialEq, Eq)]
pub enum StepRefusal {
    /// The message that the step meets has no signature of the label that can be read.
    LabelUnread,
    /// The step of this index gives no message.
    NotApplicable(usize),
    /// The label's signature doesn't permit the step of this index.
    NotPermitted(usize),
}

/// Why the digest that a request asks for isn't made (RFC 9530 section 4).
#[derive(Clone, Copy, PartialEq, Eq)]
pub enum DigestRefusal {
    /// The request's `Want-Content-Digest` is no Dictionary, or its member `sha-256` or `sha-512`
    /// is no Integer from 0 to 10.
    Malformed,
    /// It accepts neither `sha-256` nor `sha-512`.
    Unacceptable,
    /// The response has a `Content-Digest` that isn't right, or that has no digest by the algorithm
    /// that is asked for.
    Unmet,
}

impl Refusal {
    /// The status that the refusal gives.
    pub fn status(&self) -> Status
        ensures { result ≡ refusal_status self.now }
    {
        match self {
            Refusal::Arguments => Status::BadArguments,
            Refusal::Of(_, refusal) => refusal.status(),
            Refusal::Command(refusal) => refusal.status(),
        }
    }

    /// The one line that says what is refused and why, with its line end.
    pub fn line(&self, alloc: Global) -> Result<Text, Memory>
        ensures { IfOk result (λ line. line ≡ refusal_line self.now) }
    {
        let mut line = Text::from_bytes(alloc, b"refused ")?;
        append_refusal(alloc, self, &mut line)?;
        line.append(b"\n")?;
        Ok(line)
    }
}

fn sign_status(fault: SignFault) -> Status
    ensures { result ≡ sign_status fault }
{
    match fault {
        SignFault::TooLong(_) => Status::LimitPassed,
        _ => Status::BadInput,
    }
}

fn to_status(fault: ToFault) -> Status
    ensures { result ≡ to_status fault }
{
    match fault {
        ToFault::TooLarge(_) => Status::LimitPassed,
        _ => Status::BadInput,
    }
}

impl CommandRefusal {
    /// The status that the refusal gives.
    pub fn status(&self) -> Status
        ensures { result ≡ command_status self.now }
    {
        match self {
            CommandRefusal::Syntax(_) => Status::BadInput,
            CommandRefusal::Ids(_) => Status::BadInput,
            CommandRefusal::Lacks(_, _) => Status::BadInput,
            CommandRefusal::Sign(fault) => sign_status(*fault),
            CommandRefusal::Wishes(_) => Status::BadInput,
            CommandRefusal::NotTaken(_) => Status::BadInput,
            CommandRefusal::Explain(_) => Status::BadInput,
            CommandRefusal::ToMessage(fault) => to_status(*fault),
            CommandRefusal::FromMessage(_) => Status::BadInput,
            CommandRefusal::Digest(_) => Status::BadInput,
        }
    }
}
