//! Content in one chunk (RFC 9112 section 7.1).

ghost use Rattle.std.specs.Prelude.{◌≡◌, ◌≢◌, ◌↔◌, ◌++◌, ℕ, List, IfOk, MatchOption, OnOk, IsTrue, codes, false};
ghost use Rattle.std.specs.Fmt.{digits};
ghost use Rattle.framing.specs.Chunks.{chunk_text};
ghost use Rattle.framing.specs.Sizes.{chunk_of};
ghost use Rattle.component_values.specs.Context.{HasWholeMessage, context_of};
ghost use Rattle.msg_body.specs.Views.{body_before, message_content, message_of};
ghost use Rattle.normal_forms.specs.NormalMessages.{HasNormalChunks, whole_size};
ghost use Rattle.normal_forms.specs.Steps.{MakeChunksNormal, with_normal_chunks};
ghost use Rattle.rewrite_script.specs.declared.rewrite.Rewrite.{Rewrite};

use component_values::Context;
use msg_body::MessageView;
use msg_head::Side;
use rewrite_script::{Rewrite, Script, Sizes, WholeRewrite};
use sfv_text::{Memory, Text};
use std::alloc::Global;

/// Adds the line of a chunk of so many bytes: its size in hexadecimal, without zeros before it, and
/// CRLF.
fn append_size(alloc: Global, count: usize, text: &mut Text) -> Result<(), Memory>
    ensures { OnOk result (text.new ≡ text.old ++ (digits 16 false count ++ codes "\r\n")) }
{
    let line = format!(in alloc; "{count:x}\r\n")?;
    text.append(line.as_bytes())
}

// ---- the step

/// The bytes of the content as it is sent, with its chunk lines where it is in chunks.
fn sent_content<'m>(message: &MessageView<'m>) -> &'m [u8]
    ensures { result.now ≡ body_before (message_of message.now).body }
{
    &message.bytes()[message.head_len()..message.line_offset(Side::Trailer, 0)]
}

/// The data between the line of a chunk and the last chunk, where nothing else is in the bytes.
fn data_between<'m>(line: &[u8], bytes: &'m [u8]) -> Option<&'m [u8]>
    ensures { MatchOption result
        ((between : List ℕ) → bytes.now ≢ line.now ++ (between ++ codes "\r\n0\r\n"))
        (λ between. bytes.now ≡ line.now ++ (between.now ++ codes "\r\n0\r\n")) }
{
    match bytes.strip_prefix(line) {
        Some(rest) => rest.strip_suffix(b"\r\n0\r\n"),
        None => None,
    }
}

/// Whether content that is in chunks is in one, its line as `append_size` writes it.
fn has_normal_chunks(alloc: Global, context: &Context<'_, '_>) -> Result<bool, Memory>
    requires { HasWholeMessage (context_of context.now) }
    ensures { IfOk result (λ normal. IsTrue normal
        ↔ HasNormalChunks (context_of context.now).message.body) }
{
    let message = context.message;
    if !message.has_trailers() {
        return Ok(true);
    }
    let count = message.content_len();
    if count == 0 {
        return Ok(sent_content(message) == b"0\r\n".as_slice());
    }
    let mut line = Text::new(alloc);
    append_size(alloc, count, &mut line)?;
    match data_between(line.bytes(), sent_content(message)) {
        // a first chunk of so many bytes has all of the content, so this never fails; it is tested
        // since no law here says so
        Some(data) => Ok(data.len() == count),
        None => Ok(false),
    }
}

/// One size for all of the content; none where it is empty.
fn whole_size(alloc: Global, message: &MessageView<'_>) -> Result<Sizes, Memory>
    ensures { IfOk result (λ sizes. sizes ≡ whole_size (message_content (message_of message.now))) }
{
    let mut sizes = Sizes::new(alloc);
    if message.content_len() > 0 {
        sizes.push(message.content_len() as u64)?;
    }
    Ok(sizes)
}

/// Adds the step that puts the content in one chunk, where it is in chunks and these are others.
pub(crate) fn push_rechunk(
    alloc: Global,
    context: &Context<'_, '_>,
    steps: &mut Script,
) -> Result<(), Memory>
    requires { HasWholeMessage (context_of context.now) }
    ensures { OnOk result ((made : List Rewrite)
        × MakeChunksNormal (context_of context.now).message made
        × (steps.new ≡ steps.old ++ made)) }
{
    if has_normal_chunks(alloc, context)? {
        return Ok(());
    }
    let sizes = whole_size(alloc, context.message)?;
    steps.push(Rewrite::Whole(WholeRewrite::Rechunk { sizes }))
}

// ---- the text

/// Adds the content in one chunk.
fn append_chunk(alloc: Global, message: &MessageView<'_>, text: &mut Text) -> Result<(), Memory>
    ensures { OnOk result (text.new
        ≡ text.old ++ chunk_text (chunk_of (message_content (message_of message.now)))) }
{
    append_size(alloc, message.content_len(), text)?;
    message.append_content(text)?;
    text.append(b"\r\n")
}

/// Adds the content, in one chunk where it is in chunks.
pub(crate) fn append_normal_content(
    alloc: Global,
    message: &MessageView<'_>,
    text: &mut Text,
) -> Result<(), Memory>
    ensures { OnOk result (text.new
        ≡ text.old ++ body_before (with_normal_chunks (message_of message.now).body)) }
{
    if !message.has_trailers() {
        return message.append_content(text);
    }
    if message.content_len() > 0 {
        append_chunk(alloc, message, text)?;
    }
    text.append(b"0\r\n")
}
