//! Texts of messages with so much content.

ghost use Rattle.std.specs.Prelude.{◌≡◌, ◌≢◌, ◌==◌, ◌&&◌, length, IfOk};
ghost use Rattle.byte_grammar.specs.Causes.{AnswersWhere};
ghost use Rattle.msg_body.specs.Views.{message_content, message_of};
ghost use Rattle.msg_body.specs.declared.error.MessageError.{MessageError};
ghost use Rattle.line_rewrites.specs.Sized.{SpellsSized, HasNoSized};

use crate::fault::ApplyFault;
use msg_body::{Expect, MAX_MESSAGE_BYTES, MessageError, MessageRead, MessageView, read_message};
use std::alloc::Global;

/// Whether so many bytes spell the message, and its content has so many.
fn is_sized(message: &MessageView<'_>, used: usize, len: usize, count: usize) -> bool
    ensures { result
        ≡ ((used == len) && (length (message_content (message_of message.now)) == count)) }
{
    used == len && message.content_len() == count
}

/// What is answered where no message is read.
fn fault_of(error: MessageError) -> ApplyFault
    ensures { result ≡ ApplyFault.NotApplicable → error ≢ MessageError.Memory }
{
    match error {
        MessageError::Memory => ApplyFault::Memory,
        _ => ApplyFault::NotApplicable,
    }
}

/// Reads the text as that of a message whose content has so many bytes.
pub fn sized_message<'m>(
    alloc: Global,
    text: &'m [u8],
    to_head: bool,
    count: usize,
) -> Result<MessageView<'m>, ApplyFault>
    ensures ok { IfOk result (λ view. SpellsSized to_head text.now count (message_of view)) }
    ensures fault { AnswersWhere ApplyFault.Memory result ApplyFault.NotApplicable
        (HasNoSized to_head text.now count) }
{
    if text.len() > MAX_MESSAGE_BYTES {
        return Err(ApplyFault::NotApplicable);
    }
    match read_message(alloc, text, Expect::Any, to_head) {
        Ok(MessageRead::Whole(message, used)) => {
            if is_sized(&message, used, text.len(), count) {
                Ok(message)
            } else {
                Err(ApplyFault::NotApplicable)
            }
        }
        Ok(MessageRead::Partial) => Err(ApplyFault::NotApplicable),
        Err(error) => Err(fault_of(error)),
    }
}
