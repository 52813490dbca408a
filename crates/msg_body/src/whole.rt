//! Texts that are to be one whole message.

ghost use Rattle.std.specs.Prelude.{◌≡◌, ◌≢◌, ◌≤◌, length, IfOk};
ghost use Rattle.byte_grammar.specs.Causes.{AnswersWhere};
ghost use Rattle.msg_body.specs.declared.error.MessageFault.{MessageFault};
ghost use Rattle.msg_body.specs.declared.limits.TheConstants.{MAX_MESSAGE_BYTES};
ghost use Rattle.msg_body.specs.Views.{message_of};
ghost use Rattle.msg_body.specs.WholeTexts.{IsMessageFault, IsWhole, out_of_memory};

use crate::error::MessageFault;
use crate::expect::Expect;
use crate::read::{MessageRead, read_message};
use crate::view::MessageView;
use framing::is_head_request;
use std::alloc::Global;

/// How a text is read as a message.
#[derive(Clone, Copy)]
pub struct Reading {
    /// The kind of message that it has to be.
    pub expect: Expect,
    /// Whether a response answers a request whose method is HEAD (RFC 9112 section 6.3).
    pub to_head: bool,
}

impl Reading {
    ghost use Rattle.std.specs.Prelude.{◌≡◌, option_map};
    ghost use Rattle.msg_body.specs.Views.{message_of};
    ghost use Rattle.msg_body.specs.WholeTexts.{any_message, one_request, reading_for};

    /// How a request is read.
    pub fn of_request() -> Reading
        ensures { result ≡ one_request }
    {
        Reading {
            expect: Expect::Request,
            to_head: false,
        }
    }

    /// How a message of either kind is read, where no request is known that it answers.
    pub fn of_any() -> Reading
        ensures { result ≡ any_message }
    {
        Reading {
            expect: Expect::Any,
            to_head: false,
        }
    }

    /// How a text is read that has to be a response to this request, or, where none is known, a
    /// message of either kind.
    pub fn of_input(related: Option<&MessageView<'_>>) -> Reading
        ensures { result ≡ reading_for (option_map (λ view. message_of view.now) related.entry) }
    {
        match related {
            None => Reading::of_any(),
            Some(request) => Reading {
                expect: Expect::Response,
                to_head: is_head_request(request.start()),
            },
        }
    }
}

/// Reads the text as one whole message (RFC 9112 section 2.1): nothing comes after it.
pub fn whole_message<'m>(
    alloc: Global,
    reading: Reading,
    text: &'m [u8],
) -> Result<MessageView<'m>, MessageFault>
    requires { length text.now ≤ MAX_MESSAGE_BYTES }
    ensures whole { IfOk result (λ view. IsWhole reading text.now (message_of view)) }

    // The fault whose cause holds is answered, and no other.
    ensures fault { (fault : MessageFault) → fault ≢ out_of_memory
        → AnswersWhere out_of_memory result fault (IsMessageFault reading text.now fault) }
{
    match read_message(alloc, text, reading.expect, reading.to_head) {
        Ok(MessageRead::Whole(view, used)) => {
            if used == text.len() {
                Ok(view)
            } else {
                Err(MessageFault::Trailing(used))
            }
        }
        Ok(MessageRead::Partial) => Err(MessageFault::Truncated(text.len())),
        Err(error) => Err(MessageFault::Refused(error)),
    }
}
