//! Texts that are to be one whole message: the input, or a file.

ghost use Rattle.std.specs.Prelude.{◌≤◌, length, IfOk, IfErr};
ghost use Rattle.msg_body.specs.Views.{message_of};
ghost use Rattle.refusals.specs.declared.refusal.TheConstants.{MAX_INPUT_BYTES};
ghost use Rattle.refusals.specs.declared.refusal.Refusal.TheVariants.{Of};
ghost use Rattle.intake.specs.Messages.{IsInputMessage, IsInputRefused};
ghost use Rattle.intake.specs.Stops.{IfRefused, IsRefusalFor};

use crate::stop::Stop;
use msg_body::{MessageView, Reading, whole_message};
use refusals::Role;
use std::alloc::Global;

/// Reads the text of this role as one whole message.
pub fn message_of_role<'m>(
    alloc: Global,
    reading: Reading,
    role: Role,
    input: &'m [u8],
) -> Result<MessageView<'m>, Stop>
    requires { length input.now ≤ MAX_INPUT_BYTES }
    ensures ok { IfOk result (λ view. IsInputMessage reading input.now (message_of view)) }
    ensures refused { IfErr result (λ stop. IfRefused stop
        (IsRefusalFor (IsInputRefused reading input.now) (λ refusal. Of role refusal))) }
{
    match whole_message(alloc, reading, input) {
        Ok(view) => Ok(view),
        Err(fault) => Err(Stop::of_message(role, fault)),
    }
}
