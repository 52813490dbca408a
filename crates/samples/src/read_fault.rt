//! Texts that are messages, and are read again.

ghost use Rattle.std.specs.Prelude.{◌≢◌};
ghost use Rattle.msg_body.specs.WholeTexts.{out_of_memory};

use msg_body::{MessageError, MessageFault};
use sfv_text::Memory;

/// Out of memory, which is the one fault of a text that is a message.
pub(crate) fn only_memory(fault: MessageFault) -> Memory
    requires { ¬ (fault ≢ out_of_memory) }
{
    match fault {
        MessageFault::Refused(error) => match error {
            MessageError::Memory => Memory,
            _ => unreachable!(),
        },
        _ => unreachable!(),
    }
}
