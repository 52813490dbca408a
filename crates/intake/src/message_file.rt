//! Messages in files: the request that a response answers (RFC 9421 section 2.4), and the message
//! that wishes signatures (section 5.1).

ghost use Rattle.std.specs.Prelude.{◌≡◌, ◌+◌, ◌≤◌, length, Some, option_map, option_copied, IfOk, IfErr, IfSome, IfNone};
ghost use Rattle.hms_io.specs.Files.{KeepsFiles};
ghost use Rattle.msg_body.specs.Views.{message_of};
ghost use Rattle.refusals.specs.declared.refusal.TheConstants.{MAX_INPUT_BYTES};
ghost use Rattle.refusals.specs.declared.refusal.Refusal.TheVariants.{Of};
ghost use Rattle.intake.specs.Files.{HasFound};
ghost use Rattle.intake.specs.MessageFiles.{IsTaken, IsMessageFileRefused, IsMessageIn, IsTextRefused};
ghost use Rattle.msg_body.specs.declared.whole.Reading.{Reading};
ghost use Rattle.intake.specs.Stops.{IfStopped, IfRefused, IsRefusalFor, CountsStop};

use crate::message::message_of_role;
use crate::stop::Stop;
use hms_io::{Shelf, take_file};
use msg_body::{MessageView, Reading};
use refusals::{MAX_INPUT_BYTES, Role};
use sfv_text::Text;
use std::alloc::Global;

/// Takes the named file of this role whole.
fn take_named<F: Shelf>(alloc: Global, role: Role, name: &str, shelf: &mut F) -> Result<Text, Stop>
    ensures ok { IfOk result (λ text. HasFound (F.files shelf.old) (Some name.now) (λ found.
        IsTaken (Some name.now) found (Some text))) }
    ensures refused { (reading : Reading) → IfErr result (λ stop. IfStopped stop (λ refusal.
        HasFound (F.files shelf.old) (Some name.now) (λ found.
        IsRefusalFor (IsMessageFileRefused reading (Some name.now) found)
        (λ cause. Of role cause) refusal))) }
    ensures files { KeepsFiles (F.files shelf.old) (F.files shelf.new) }
    ensures cause { CountsStop (F.faults shelf.old) (F.faults shelf.new) result }
    ensures later { F.faults shelf.old ≤ F.faults shelf.new }
    ensures asked { F.asked shelf.new ≤ F.asked shelf.old + 1 }
    ensures reached { F.reached shelf.new ≤ F.reached shelf.old + (MAX_INPUT_BYTES + 1) }
{
    match take_file(alloc, shelf, name, MAX_INPUT_BYTES) {
        Ok(text) => Ok(text),
        Err(error) => Err(Stop::of_file(role, MAX_INPUT_BYTES, error)),
    }
}

/// Takes the named file of this role whole, where one is named.
pub fn fetch_message<F: Shelf>(
    alloc: Global,
    role: Role,
    name: Option<&str>,
    shelf: &mut F,
) -> Result<Option<Text>, Stop>
    ensures ok { IfOk result (λ text.
        HasFound (F.files shelf.old) (option_map (λ word. word.now) name.entry) (λ found.
        IsTaken (option_map (λ word. word.now) name.entry) found text)) }

    // However it is to be read, it is refused where none is there, or it is too long.
    ensures refused { (reading : Reading) → IfErr result (λ stop. IfStopped stop (λ refusal.
        HasFound (F.files shelf.old) (option_map (λ word. word.now) name.entry) (λ found.
        IsRefusalFor (IsMessageFileRefused reading (option_map (λ word. word.now) name.entry) found)
        (λ cause. Of role cause) refusal))) }
    ensures files { KeepsFiles (F.files shelf.old) (F.files shelf.new) }
    ensures cause { CountsStop (F.faults shelf.old) (F.faults shelf.new) result }
    ensures later { F.faults shelf.old ≤ F.faults shelf.new }
    ensures asked { F.asked shelf.new ≤ F.asked shelf.old + 1 }
    ensures reached { F.reached shelf.new ≤ F.reached shelf.old + (MAX_INPUT_BYTES + 1) }
    ensures unasked { IfNone name.entry (shelf.new ≡ shelf.old) }
{
    match name {
        None => Ok(None),
        Some(name) => Ok(Some(take_named(alloc, role, name, shelf)?)),
    }
}

/// Reads the text that was taken as one whole message.
pub fn fetched_message<'m>(
    alloc: Global,
    role: Role,
    reading: Reading,
    text: Option<&'m Text>,
) -> Result<Option<MessageView<'m>>, Stop>
    requires { IfSome text (λ taken. length taken.now ≤ MAX_INPUT_BYTES) }
    ensures ok { IfOk result (λ message. IsMessageIn reading (option_copied text.entry)
        (option_map (λ view. message_of view) message)) }
    ensures refused { IfErr result (λ stop. IfRefused stop (IsRefusalFor
        (IsTextRefused reading (option_copied text.entry)) (λ cause. Of role cause))) }
{
    let Some(text) = text else {
        return Ok(None);
    };
    Ok(Some(message_of_role(alloc, reading, role, text.bytes())?))
}
