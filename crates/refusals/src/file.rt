//! Why a text is refused that a run reads, and the status that this gives.

ghost use Rattle.std.specs.Prelude.{◌≡◌, ◌++◌, option_copied, OnOk};
ghost use Rattle.refusals.specs.Texts.{path_text, file_text, message_status, fault_status, script_status, recording_status, fields_status, file_status};

use conf::ConfFault;
use hms_io::Status;
use list_texts::FieldsFault;
use msg_body::{MessageError, MessageFault};
use recording::RecordingFault;
use rewrite_script::ScriptFault;
use sfv_text::{Memory, Text, append_number, append_words};
use std::alloc::Global;

/// Why a text is refused: that of a file, or the input.
#[derive(Drop)]
pub enum FileRefusal {
    /// There is no file of the name.
    Missing,
    /// It has more bytes than this limit.
    TooLong(usize),
    /// It isn't one whole message (RFC 9112 section 2.1). The error of the fault is never out of
    /// memory.
    Message(MessageFault),
    /// It is no configuration. The fault is never out of memory.
    Conf(ConfFault),
    /// It is no script. The fault is never out of memory.
    Script(ScriptFault),
    /// It is no recording. The fault is never out of memory.
    Recording(RecordingFault),
    /// It is a recording, but of no chain. The line of the first item that isn't in a chain's order
    /// is at this offset.
    Order(u64),
    /// It is the recording of a chain of more hops than this limit.
    TooManyHops(usize),
    /// It is a recording, but of no stream of messages. The line of the item that isn't in its
    /// place is at this offset.
    OutOfPlace(u64),
    /// It is a recording of more items than this limit.
    TooManyItems(usize),
    /// It is no list of fields. The fault is never out of memory.
    Fields(FieldsFault),
}

impl FileRefusal {
    /// The status that the refusal gives.
    pub fn status(&self) -> Status
        ensures { result ≡ file_status self.now }
    {
        match self {
            FileRefusal::Missing => Status::FileMissing,
            FileRefusal::TooLong(_) => Status::LimitPassed,
            FileRefusal::Message(fault) => fault_status(*fault),
            FileRefusal::Conf(_) => Status::BadConf,
            FileRefusal::Script(fault) => script_status(*fault),
            FileRefusal::Recording(fault) => recording_status(*fault),
            FileRefusal::Order(_) => Status::BadInput,
            FileRefusal::TooManyHops(_) => Status::LimitPassed,
            FileRefusal::OutOfPlace(_) => Status::BadInput,
            FileRefusal::TooManyItems(_) => Status::LimitPassed,
            FileRefusal::Fields(fault) => fields_status(*fault),
        }
    }
}

fn message_status(error: MessageError) -> Status
    ensures { result ≡ message_status error }
{
    match error {
        MessageError::TooLong(_) => Status::LimitPassed,
        MessageError::TooManyLines(_) => Status::LimitPassed,
        MessageError::ContentTooLong => Status::LimitPassed,
        _ => Status::BadInput,
    }
}

fn fault_status(fault: MessageFault) -> Status
    ensures { result ≡ fault_status fault }
{
    match fault {
        MessageFault::Refused(error) => message_status(error),
        _ => Status::BadInput,
    }
}

fn script_status(fault: ScriptFault) -> Status
    ensures { result ≡ script_status fault }
{
    match fault {
        ScriptFault::TooMany => Status::LimitPassed,
        _ => Status::BadInput,
    }
}

fn recording_status(fault: RecordingFault) -> Status
    ensures { result ≡ recording_status fault }
{
    match fault {
        RecordingFault::ItemTooLong(_) => Status::LimitPassed,
        _ => Status::BadInput,
    }
}

fn fields_status(fault: FieldsFault) -> Status
    ensures { result ≡ fields_status fault }
{
    match fault {
        FieldsFault::TooLong(_) => Status::LimitPassed,
        _ => Status::BadInput,
    }
}

/// Adds a path, after a space, where there is one.
fn append_path(path: Option<&[u8]>, line: &mut Text) -> Result<(), Memory>
    ensures { OnOk result (line.new ≡ line.old ++ path_text (option_copied path.entry)) }
{
    match path {
        None => Ok(()),
        Some(path) => append_words(b" ", path, line),
    }
}

/// Adds why a text is refused, at the end of the line.
pub fn append_file(alloc: Global, refusal: &FileRefusal, line: &mut Text) -> Result<(), Memory>
    ensures { OnOk result (line.new ≡ line.old ++ file_text refusal.now) }
{
    match refusal {
        FileRefusal::Missing => line.append(b"missing"),
        FileRefusal::TooLong(limit) => append_number(alloc, b"bytes ", *limit, line),
        FileRefusal::Message(fault) => {
            let text = format!(in alloc; "{fault}")?;
            line.append(text.as_bytes())
        }
        FileRefusal::Conf(fault) => {
            append_number(alloc, b"", fault.number() as usize, line)?;
            append_path(fault.path(), line)
        }
        FileRefusal::Script(fault) => {
            let text = format!(in alloc; "{fault}")?;
            line.append(text.as_bytes())
        }
        FileRefusal::Recording(fault) => {
            let text = format!(in alloc; "{fault}")?;
            line.append(text.as_bytes())
        }
        FileRefusal::Order(offset) => append_number(alloc, b"chain ", *offset as usize, line),
        FileRefusal::TooManyHops(limit) => append_number(alloc, b"hops ", *limit, line),
        FileRefusal::OutOfPlace(offset) => append_number(alloc, b"chain ", *offset as usize, line),
        FileRefusal::TooManyItems(limit) => append_number(alloc, b"items ", *limit, line),
        FileRefusal::Fields(fault) => {
            let text = format!(in alloc; "{fault}")?;
            line.append(text.as_bytes())
        }
    }
}
