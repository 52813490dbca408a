//! The bytes of a message whose content is sent in another way: in chunks, in other chunks, or as
//! it is (RFC 9112 sections 6 and 7.1).

ghost use Rattle.std.specs.Prelude.{◌≡◌, ◌+◌, ◌^◌, ◌<◌, ◌≤◌, ◌++◌, IfSome, MatchOption, OnOk, IsTrue, IsFalse, length, drop};
ghost use Rattle.std.specs.List.{list_all};
ghost use Rattle.framing.specs.Chunks.{chunks_text};
ghost use Rattle.framing.specs.Sizes.{add_up_to, sized_chunks};
ghost use Rattle.component_values.specs.Context.{HasWholeMessage, context_of};
ghost use Rattle.line_rewrites.specs.LineLists.{line_of};
ghost use Rattle.line_rewrites.specs.Sides.{side_parts};
ghost use Rattle.msg_body.specs.Views.{lines_on, message_content, message_of};
ghost use Rattle.msg_head.specs.Values.{is_there};
ghost use Rattle.msg_head.specs.declared.error.Side.TheVariants.{Header};
ghost use Rattle.rewrite_script.specs.Lines.{is_number};
ghost use Rattle.rewrite_script.specs.declared.rewrite.WholeRewrite.TheVariants.{Rechunk, Chunk, Dechunk};
ghost use Rattle.whole_rewrites.specs.Content.{length_line};
ghost use Rattle.whole_rewrites.specs.tools.HeadLines.{HasNoOnly, IsNextNamed, IsOnly, head_in, head_with};
ghost use Rattle.whole_rewrites.specs.tools.Judged.{Offers};

use component_values::Context;
use framing::{Framing, append_chunks, are_chunk_sizes};
use line_rewrites::{ApplyFault, SideLines, append_text_line};
use msg_body::MessageView;
use msg_head::Side;
use rewrite_script::Sizes;
use sfv_text::{Memory, Text};
use std::alloc::Global;

// ---- lines that frame

/// The index of the first line of the header from the index on that has the name.
fn next_named(message: &MessageView<'_>, name: &[u8], from: usize) -> Option<usize>
    requires { from ≤ length (lines_on Header (message_of message.now)) }
    ensures line { MatchOption result
        (IsFalse (is_there (drop from (lines_on Header (message_of message.now))) name.now))
        (IsNextNamed name.now (lines_on Header (message_of message.now)) from) }
    ensures fits { IfSome result (λ index. index + 1 < 2 ^ 64) }
{
    for index in from..message.line_count(Side::Header) {
        if message.line(Side::Header, index).is_named(name) {
            return Some(index);
        }
    }
    None
}

/// The index of the one line of the header that has the name.
fn only_line(message: &MessageView<'_>, name: &[u8]) -> Option<usize>
    ensures { MatchOption result
        (HasNoOnly name.now (lines_on Header (message_of message.now)))
        (IsOnly name.now (lines_on Header (message_of message.now))) }
{
    let Some(index) = next_named(message, name, 0) else {
        return None;
    };
    match next_named(message, name, index + 1) {
        Some(_) => None,
        None => Some(index),
    }
}

/// Adds the head.
fn append_head(lines: &SideLines<'_, '_>, text: &mut Text) -> Result<(), Memory>
    ensures { OnOk result (text.new ≡ text.old ++ head_in lines.now) }
{
    text.append(lines.before(lines.count()))?;
    text.append(b"\r\n")
}

/// Adds the head, with a line of this name and this text in place of the line of the index.
fn append_head_with(
    lines: &SideLines<'_, '_>,
    index: usize,
    name: &[u8],
    line: &[u8],
    text: &mut Text,
) -> Result<(), Memory>
    requires { index < length lines.now.lines }
    ensures { OnOk result (text.new
        ≡ text.old ++ head_with lines.now index (line_of name.now line.now)) }
{
    let count = lines.count();
    text.append(lines.before(index))?;
    append_text_line(name, line, text)?;
    text.append(lines.between(index + 1, count))?;
    text.append(b"\r\n")
}

// ---- content

/// Adds the message's content in chunks of these sizes, and the last chunk.
fn append_in_chunks(
    alloc: Global,
    message: &MessageView<'_>,
    sizes: &Sizes,
    text: &mut Text,
) -> Result<(), Memory>
    requires { IsTrue (add_up_to (length (message_content (message_of message.now))) sizes.now) }
    ensures { OnOk result (text.new ≡ text.old
        ++ chunks_text (sized_chunks sizes.now (message_content (message_of message.now)))) }
{
    let mut content = Text::with_capacity(alloc, message.content_len())?;
    message.append_content(&mut content)?;
    append_chunks(content.bytes(), sizes, text)
}

/// How many bytes a message takes at most when its content comes in chunks of these sizes.
fn room_for(message: &MessageView<'_>, sizes: &Sizes) -> usize {
    let chunk_lines = sizes.len().saturating_mul(10);
    message
        .bytes()
        .len()
        .saturating_add(chunk_lines)
        .saturating_add(40)
}

// ---- messages

/// The side of the header of the message.
pub(crate) fn header_of<'a, 'm>(message: &'a MessageView<'m>) -> SideLines<'a, 'm>
    ensures { result ≡ side_parts Header (message_of message.now) }
{
    match SideLines::of(message, Side::Header) {
        Some(lines) => lines,
        None => unreachable!(),
    }
}

/// Adds the head, with a line of the content's length in place of the line of the index.
fn append_head_of_length(
    alloc: Global,
    lines: &SideLines<'_, '_>,
    index: usize,
    count: usize,
    text: &mut Text,
) -> Result<(), Memory>
    requires { index < length lines.now.lines }
    ensures { OnOk result (text.new ≡ text.old ++ head_with lines.now index (length_line count)) }
{
    let digits = format!(in alloc; "{count}")?;
    append_head_with(lines, index, b"Content-Length", digits.as_bytes(), text)
}

/// The message of the context, its content in chunks of these sizes in place of its own. Whether
/// that is a message within the limits isn't asked.
pub(crate) fn rechunked(
    alloc: Global,
    context: &Context<'_, '_>,
    sizes: &Sizes,
) -> Result<Text, ApplyFault>
    requires writable { IsTrue (list_all is_number sizes.now) }
    requires whole { HasWholeMessage (context_of context.now) }
    ensures { Offers (context_of context.now) (Rechunk sizes.now) result }
{
    let message = context.message;
    let Some(trailers) = SideLines::of(message, Side::Trailer) else {
        return Err(ApplyFault::NotApplicable);
    };
    if !are_chunk_sizes(sizes, message.content_len()) {
        return Err(ApplyFault::NotApplicable);
    }
    let mut text = Text::with_capacity(alloc, room_for(message, sizes))?;
    append_head(&header_of(message), &mut text)?;
    append_in_chunks(alloc, message, sizes, &mut text)?;
    text.append(trailers.rest_from(0))?;
    Ok(text)
}

/// The message of the context, its content in chunks of these sizes. Whether that is a message
/// within the limits isn't asked.
pub(crate) fn chunked(
    alloc: Global,
    context: &Context<'_, '_>,
    sizes: &Sizes,
) -> Result<Text, ApplyFault>
    requires writable { IsTrue (list_all is_number sizes.now) }
    requires whole { HasWholeMessage (context_of context.now) }
    ensures { Offers (context_of context.now) (Chunk sizes.now) result }
{
    let message = context.message;
    if message.framing() != Framing::Length {
        return Err(ApplyFault::NotApplicable);
    }
    if !are_chunk_sizes(sizes, message.content_len()) {
        return Err(ApplyFault::NotApplicable);
    }
    let Some(index) = only_line(message, b"content-length") else {
        return Err(ApplyFault::NotApplicable);
    };
    let lines = header_of(message);
    let mut text = Text::with_capacity(alloc, room_for(message, sizes))?;
    append_head_with(&lines, index, b"Transfer-Encoding", b"chunked", &mut text)?;
    append_in_chunks(alloc, message, sizes, &mut text)?;
    text.append(b"\r\n")?;
    Ok(text)
}

/// The message of the context, its content as it is. Whether that is a message within the limits
/// isn't asked.
pub(crate) fn dechunked(alloc: Global, context: &Context<'_, '_>) -> Result<Text, ApplyFault>
    requires whole { HasWholeMessage (context_of context.now) }
    ensures { Offers (context_of context.now) Dechunk result }
{
    let message = context.message;
    if message.framing() != Framing::Chunked {
        return Err(ApplyFault::NotApplicable);
    }
    if message.line_count(Side::Trailer) > 0 {
        return Err(ApplyFault::NotApplicable);
    }
    let Some(index) = only_line(message, b"transfer-encoding") else {
        return Err(ApplyFault::NotApplicable);
    };
    let lines = header_of(message);
    let mut text = Text::with_capacity(alloc, message.bytes().len())?;
    append_head_of_length(alloc, &lines, index, message.content_len(), &mut text)?;
    message.append_content(&mut text)?;
    Ok(text)
}
