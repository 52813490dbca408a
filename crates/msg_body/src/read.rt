//! Reads a message.

ghost use Rattle.std.specs.Prelude.{◌≡◌, ◌≢◌, ℕ, ◌≤◌, length, Ok, IsTrue};
ghost use Rattle.byte_grammar.specs.Causes.{AnswersWhere, AnswersUnlessMemory};
ghost use Rattle.msg_head.specs.Heads.{IsUnfinished};
ghost use Rattle.msg_head.specs.Views.{IsViewOf};
ghost use Rattle.msg_body.specs.declared.limits.TheConstants.{MAX_MESSAGE_BYTES};
ghost use Rattle.msg_body.specs.Messages.{Message, SpellsMessage, is_expected};
ghost use Rattle.msg_body.specs.Views.{IsMessageViewOf};
ghost use Rattle.msg_body.specs.Causes.{IsMessageError, IsMessageUnfinished};
ghost use Rattle.msg_body.specs.Outcome.{IfWholeMessage, IsMessageUnlessMemory};
ghost use Rattle.msg_body.specs.tools.Judged.{ExplainsMessage, ExplainsRest};

use crate::body::{BodyRead, read_body};
use crate::error::MessageError;
use crate::expect::{Expect, is_expected};
use crate::view::MessageView;
use framing::{Framing, read_framing};
use msg_head::{HeadRead, HeadView, read_head};
use std::alloc::Global;

/// What the bytes begin with.
#[derive(Drop)]
pub enum MessageRead<'m> {
    /// A message, and how many bytes spell it.
    Whole(MessageView<'m>, usize),
    /// No end of a message is there yet, and nothing that is there is wrong.
    Partial,
}

// The framing that the head says, and what the bytes after it begin with.
fn judge_rest<'m>(
    alloc: Global,
    bytes: &'m [u8],
    head: &HeadView<'m>,
    start: usize,
    expect: Expect,
    to_head: bool,
) -> Result<(Framing, BodyRead<'m>), MessageError>
    requires short { length bytes.now ≤ MAX_MESSAGE_BYTES }
    requires view { IsViewOf bytes.now head.now start }
    ensures { ExplainsRest expect to_head bytes.now head.now start result }
{
    if !is_expected(expect, head.start()) {
        return Err(MessageError::BadStart);
    }
    let framed = read_framing(head, to_head)?;
    let (_, rest) = bytes.split_at(start);
    let body = read_body(alloc, rest, start, framed)?;
    Ok((framed.framing, body))
}

// The answer to bytes, by its cause.
fn judge<'m>(
    alloc: Global,
    bytes: &'m [u8],
    expect: Expect,
    to_head: bool,
) -> Result<MessageRead<'m>, MessageError>
    requires { length bytes.now ≤ MAX_MESSAGE_BYTES }
    ensures explains { ExplainsMessage expect to_head bytes.now result }
    ensures unfinished_head { IsUnfinished bytes.now → result ≡ Ok MessageRead.Partial }
{
    match read_head(alloc, bytes)? {
        HeadRead::Whole(head, start) => {
            match judge_rest(alloc, bytes, &head, start, expect, to_head) {
                Ok((framing, BodyRead::Whole(body, count))) => {
                    let used = start + count;
                    let message = MessageView::new(&bytes[..used], head, framing, body);
                    Ok(MessageRead::Whole(message, used))
                }
                Ok((_, BodyRead::Partial)) => Ok(MessageRead::Partial),
                Err(error) => Err(error),
            }
        }
        HeadRead::Partial => Ok(MessageRead::Partial),
    }
}

/// Reads the message of the expected kind that the bytes begin with (RFC 9112 section 2.1).
///
/// `to_head` says that a response answers a HEAD request, which is why it has no content (RFC 9112
/// section 6.3). Content that ends where its sender closes the connection takes all bytes.
pub fn read_message<'m>(
    alloc: Global,
    bytes: &'m [u8],
    expect: Expect,
    to_head: bool,
) -> Result<MessageRead<'m>, MessageError>
    requires { length bytes.now ≤ MAX_MESSAGE_BYTES }
    ensures whole { IfWholeMessage result
        (λ view used. IsMessageViewOf expect to_head bytes.now view used) }
    ensures found { (message : Message) (used : ℕ)
        → SpellsMessage to_head message used bytes.now
        → IsTrue (is_expected expect message.head.start)
        → IsMessageUnlessMemory result message used }
    ensures partial { result ≡ Ok MessageRead.Partial
        → IsMessageUnfinished expect to_head bytes.now }
    ensures unfinished { IsMessageUnfinished expect to_head bytes.now
        → AnswersUnlessMemory MessageError.Memory result MessageRead.Partial }
    ensures unfinished_head { IsUnfinished bytes.now → result ≡ Ok MessageRead.Partial }

    // The fault whose cause holds is answered, and no other.
    ensures fault { (fault : MessageError) → fault ≢ MessageError.Memory
        → AnswersWhere MessageError.Memory result fault
        (IsMessageError expect to_head bytes.now fault) }
{
    judge(alloc, bytes, expect, to_head)
}
