//! Turns a list of fields into a message of HTTP/1.1.

ghost use Rattle.std.specs.Prelude.{◌≡◌, ◌≢◌, ◌≤◌, ◌++◌, IfOk, MatchResult, OnOk, length, map, true};
ghost use Rattle.std.specs.List.{flat_map};
ghost use Rattle.byte_grammar.specs.Causes.{AnswersWhere};
ghost use Rattle.framing.specs.declared.chunk_limits.TheConstants.{MAX_CONTENT_BYTES};
ghost use Rattle.framing.specs.Chunks.{chunks_text};
ghost use Rattle.msg_head.specs.Heads.{head_text};
ghost use Rattle.msg_head.specs.Lines.{line_of, line_text};
ghost use Rattle.msg_head.specs.Starts.{start_text};
ghost use Rattle.msg_body.specs.Bodies.{body_text};
ghost use Rattle.msg_body.specs.Messages.{Message, message_text};
ghost use Rattle.field_lists.specs.Controls.{request, response};
ghost use Rattle.field_lists.specs.ToMessages.{body_with, coding_lines, head_with, host_lines, line_of_field, message_with, one_chunk, start_of};
ghost use Rattle.field_lists.specs.ToCauses.{IsToFault, TurnsInto};
ghost use Rattle.field_lists.specs.tools.PartViews.{GivesMessage};
ghost use Rattle.field_lists.specs.tools.Sizes.{sizes_of};
ghost use Rattle.field_lists.specs.tools.Views.{control_of, request_of};

use crate::control::{Control, RequestControl};
use crate::parts::Parts;
use crate::to_fault::ToFault;
use byte_grammar::{Memory, Sequence, Text, append_words};
use component_ids::Scheme;
use framing::append_chunks;
use list_texts::{Field, FieldList};
use std::alloc::Global;

// Adds a field line.
fn append_line(name: &[u8], value: &[u8], text: &mut Text) -> Result<(), Memory>
    ensures { OnOk result (text.new ≡ text.old ++ line_text (line_of name.now value.now)) }
{
    append_words(name, b": ", text)?;
    append_words(value, b"\r\n", text)
}

// Adds the field lines of the fields, in order.
fn append_lines(fields: &[Field], text: &mut Text) -> Result<(), Memory>
    ensures { OnOk result (text.new
        ≡ text.old ++ flat_map line_text (map line_of_field fields.now)) }
{
    for field in fields {
        append_line(field.name.bytes(), field.value.bytes(), text)?;
    }
    Ok(())
}

// Adds the request line and the `Host` line.
fn append_request(control: RequestControl<'_>, text: &mut Text) -> Result<(), Memory>
    ensures { OnOk result (text.new ≡ text.old
        ++ (start_text (start_of (request (request_of control.entry)))
        ++ flat_map line_text (host_lines (request (request_of control.entry))))) }
{
    append_words(control.method, b" ", text)?;
    append_words(control.path, b" HTTP/1.1\r\n", text)?;
    append_line(b"host", control.authority, text)
}

// Adds the status line.
fn append_status(code: &[u8], text: &mut Text) -> Result<(), Memory>
    ensures { OnOk result (text.new ≡ text.old ++ (start_text (start_of (response code.now))
        ++ flat_map line_text (host_lines (response code.now)))) }
{
    append_words(b"HTTP/1.1 ", code, text)?;
    text.append(b" \r\n")
}

// Adds the start line, and the `Host` line of a request.
fn append_start(control: Control<'_>, text: &mut Text) -> Result<(), Memory>
    ensures { OnOk result (text.new ≡ text.old ++ (start_text (start_of (control_of control.entry))
        ++ flat_map line_text (host_lines (control_of control.entry)))) }
{
    match control {
        Control::Request(request) => append_request(request, text),
        Control::Response(code) => append_status(code, text),
    }
}

// Adds the line that says that the content goes in chunks, where it does.
fn append_coding(in_chunks: bool, text: &mut Text) -> Result<(), Memory>
    ensures { OnOk result (text.new ≡ text.old ++ flat_map line_text (coding_lines in_chunks)) }
{
    if !in_chunks {
        return Ok(());
    }
    append_line(b"transfer-encoding", b"chunked", text)
}

// Adds the head.
fn append_head(parts: Parts<'_>, in_chunks: bool, text: &mut Text) -> Result<(), Memory>
    ensures { OnOk result (text.new ≡ text.old ++ head_text (head_with
        (control_of parts.entry.control) parts.entry.others.now in_chunks)) }
{
    append_start(parts.control, text)?;
    append_lines(parts.others, text)?;
    append_coding(in_chunks, text)?;
    text.append(b"\r\n")
}

// The sizes of the chunks: that of the content, or none where it is empty.
fn sizes_of(alloc: Global, content: &[u8]) -> Result<Sequence<u64>, Memory>
    ensures { IfOk result (λ sizes. sizes ≡ sizes_of content.now) }
{
    let mut sizes = Sequence::new(alloc);
    if content.is_empty() {
        return Ok(sizes);
    }
    sizes.push(content.len() as u64)?;
    Ok(sizes)
}

// Adds the content in one chunk, or in none where it is empty.
fn append_chunk(alloc: Global, content: &[u8], text: &mut Text) -> Result<(), Memory>
    ensures { OnOk result (text.new ≡ text.old ++ chunks_text (one_chunk content.now)) }
{
    let sizes = sizes_of(alloc, content)?;
    append_chunks(content, &sizes, text)
}

// Adds the content in chunks, and the trailer section.
fn append_chunked(alloc: Global, list: &FieldList, text: &mut Text) -> Result<(), Memory>
    ensures { OnOk result (text.new ≡ text.old ++ body_text (body_with true list.now)) }
{
    append_chunk(alloc, list.content.bytes(), text)?;
    append_lines(list.trailers.as_slice(), text)?;
    text.append(b"\r\n")
}

// Adds what comes after the head: the content, or chunks and the trailer section.
fn append_body(
    alloc: Global,
    list: &FieldList,
    in_chunks: bool,
    text: &mut Text,
) -> Result<(), Memory>
    ensures { OnOk result (text.new ≡ text.old ++ body_text (body_with in_chunks list.now)) }
{
    if in_chunks {
        return append_chunked(alloc, list, text);
    }
    text.append(list.content.bytes())
}

// The message of the parts.
fn write(alloc: Global, parts: Parts<'_>) -> Result<Text, Memory>
    ensures { IfOk result (λ text. text ≡ message_text (message_with
        (control_of parts.entry.control) parts.entry.others.now parts.entry.list.now)) }
{
    let in_chunks = parts.is_in_chunks();
    let mut text = Text::new(alloc);
    append_head(parts, in_chunks, &mut text)?;
    append_body(alloc, parts.list, in_chunks, &mut text)?;
    Ok(text)
}

// The text of the message, or the first fault.
fn turn(alloc: Global, list: &FieldList, scheme: Scheme) -> Result<Text, ToFault>
    ensures { GivesMessage list.now scheme result }
{
    let Some(parts) = Parts::of(list) else {
        return Err(ToFault::Pseudo);
    };
    parts.judge(alloc, scheme)?;
    let text = write(alloc, parts)?;
    Ok(text)
}

/// Turns a list into the message that it stands for. Its text is written once.
pub fn to_message(alloc: Global, list: &FieldList, scheme: Scheme) -> Result<Text, ToFault>
    requires { length list.now.content ≤ MAX_CONTENT_BYTES }
    ensures ok { IfOk result (λ text. (message : Message) × TurnsInto list.now scheme message
        × (text ≡ message_text message)) }
    ensures only { (message : Message) → TurnsInto list.now scheme message
        → MatchResult result (λ text. text ≡ message_text message)
        (λ fault. fault ≡ ToFault.Memory) }

    // The first fault whose cause holds is answered, and no other.
    ensures fault { (fault : ToFault) → fault ≢ ToFault.Memory
        → AnswersWhere ToFault.Memory result fault (IsToFault list.now scheme fault) }
{
    turn(alloc, list, scheme)
}
