//! Reads the text of a message of which all but the head is known.

ghost use Rattle.std.specs.Prelude.{◌≡◌, Bool, IfOk, IfErr};
ghost use Rattle.msg_head.specs.Heads.{Head};
ghost use Rattle.msg_body.specs.Content.{body_parts};
ghost use Rattle.msg_body.specs.Messages.{Spells, with_head};
ghost use Rattle.msg_body.specs.Views.{body_of, message_of};
ghost use Rattle.msg_body.specs.tools.Trailed.{EndsWithTrailer};

use crate::body::BodyView;
use crate::error::MessageError;
use crate::view::MessageView;
use msg_head::{HeadError, HeadRead, TrailerRead, read_head, read_trailer};
use std::alloc::Global;

/// Out of memory, which is the one error where a head or a trailer section is there.
fn only_memory(error: HeadError) -> MessageError
    requires { error ≡ HeadError.Memory }
    ensures { result ≡ MessageError.Memory }
{
    match error {
        HeadError::Memory => MessageError::Memory,
        _ => unreachable!(),
    }
}

/// The body once more, with which the text ends. Its chunks aren't read again.
fn body_again<'m>(
    alloc: Global,
    body: &BodyView<'m>,
    text: &'m [u8],
) -> Result<BodyView<'m>, MessageError>
    requires { EndsWithTrailer (body_of (body_parts body.now)) text.now }
    ensures ok { IfOk result (λ again. body_of (body_parts again) ≡ body_of (body_parts body.now)) }
    ensures err { IfErr result (λ error. error ≡ MessageError.Memory) }
{
    match body {
        BodyView::Plain(content) => Ok(BodyView::Plain(*content)),
        BodyView::Chunked(chunks, trailer) => {
            let (_, section) = text.split_at(text.len() - trailer.bytes().len());
            match read_trailer(alloc, section) {
                Ok(TrailerRead::Whole(lines, _)) => Ok(BodyView::Chunked(chunks.again(), lines)),
                Ok(TrailerRead::Partial) => unreachable!(),
                Err(error) => Err(only_memory(error)),
            }
        }
    }
}

/// Reads the text of a message that has another head than this one, and else is the same: the head,
/// and the trailer section where there is one. Content isn't read.
pub fn read_other_head<'m>(
    alloc: Global,
    message: &MessageView<'m>,
    text: &'m [u8],
) -> Result<MessageView<'m>, MessageError>
    requires { (to_head : Bool) × (head : Head)
        × Spells to_head (with_head (message_of message.now) head) text.now }
    ensures ok { (to_head : Bool) (head : Head)
        → Spells to_head (with_head (message_of message.now) head) text.now
        → IfOk result (λ view. message_of view ≡ with_head (message_of message.now) head) }
    ensures err { IfErr result (λ error. error ≡ MessageError.Memory) }
{
    match read_head(alloc, text) {
        Ok(HeadRead::Whole(head, _)) => {
            let body = body_again(alloc, message.body(), text)?;
            Ok(MessageView::new(text, head, message.framing(), body))
        }
        Ok(HeadRead::Partial) => unreachable!(),
        Err(error) => Err(only_memory(error)),
    }
}
