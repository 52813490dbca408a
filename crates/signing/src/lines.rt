//! The lines that signing adds.

ghost use Rattle.std.specs.Prelude.{◌≡◌, ◌<◌, ◌^◌, ◌++◌, ℕ, List, length, IfOk, IsTrue, OnOk};
ghost use Rattle.std.specs.List.{flat_map, list_all};
ghost use Rattle.component_ids.specs.SignatureParams.{sig_params_text};
ghost use Rattle.msg_head.specs.Lines.{line_text};
ghost use Rattle.msg_body.specs.Views.{message_of};
ghost use Rattle.sfv_text.specs.Classes.{is_byte};
ghost use Rattle.signing.specs.SignCauses.{any_tag};
ghost use Rattle.signing.specs.Written.{line_of, member_line, digest_lines, signature_lines};
ghost use Rattle.signing.specs.tools.Lines.{AreLines};

use crate::mac::TAG_BYTES;
use crate::spec::SignSpec;
use content_digest::{Algorithm, make_digest};
use msg_body::{MessageView, count_lines};
use msg_head::Side;
use sfv_text::{BareItem, Memory, Text, print_bare};
use std::alloc::Global;

/// How many bytes the text of a tag has, which is a Byte Sequence (RFC 9651 section 4.1.8).
const TAG_TEXT_BYTES: usize = (TAG_BYTES + 2) / 3 * 4 + 2;

/// Room for what the lines of a signature have beside its parameters, where its label is short.
const SIGNATURE_ROOM: usize = 128;

/// Lines to be added to a header.
#[derive(Drop)]
pub(crate) struct AddedLines {
    /// Their bytes.
    pub text: Text,
    /// How many there are.
    pub count: usize,
}

/// Adds the line of a field at the end.
fn append_line(text: &mut Text, name: &[u8], value: &[u8]) -> Result<(), Memory>
    ensures { OnOk result (text.new ≡ text.old ++ line_text (line_of name.now value.now)) }
{
    text.append(name)?;
    text.append(b": ")?;
    text.append(value)?;
    text.append(b"\r\n")
}

/// Adds the line of a Dictionary of one member at the end.
fn append_member(text: &mut Text, name: &[u8], key: &[u8], value: &[u8]) -> Result<(), Memory>
    ensures { OnOk result (text.new
        ≡ text.old ++ line_text (member_line name.now key.now value.now)) }
{
    text.append(name)?;
    text.append(b": ")?;
    text.append(key)?;
    text.append(b"=")?;
    text.append(value)?;
    text.append(b"\r\n")
}

/// The line of the content's digest, where one is asked for and the header has no such line.
pub(crate) fn digest_lines(
    alloc: Global,
    message: &MessageView<'_>,
    digest: Option<Algorithm>,
) -> Result<AddedLines, Memory>
    ensures { IfOk result (λ added. AreLines added (digest_lines (message_of message.now) digest)) }
{
    let mut text = Text::new(alloc);
    let Some(algorithm) = digest else {
        return Ok(AddedLines { text, count: 0 });
    };
    if count_lines(message, Side::Header, b"content-digest") > 0 {
        return Ok(AddedLines { text, count: 0 });
    }
    let value = make_digest(alloc, algorithm, message)?;
    append_line(&mut text, b"Content-Digest", value.bytes())?;
    Ok(AddedLines { text, count: 1 })
}

/// How many bytes the line of a Dictionary of one member has, the text of whose value has so many.
fn member_line_len(name: &[u8], key: &[u8], value: usize) -> u128
    ensures is { (text : List ℕ) → value ≡ length text
        → result ≡ length (line_text (member_line name.now key.now text)) }
    ensures small { result < 2 ^ 67 }
{
    // A colon and a space, an equals sign, and the line's end.
    name.len() as u128 + key.len() as u128 + value as u128 + 5
}

/// How many bytes the lines of a signature have, whose parameters have this text. The texts of all
/// tags have one length.
pub(crate) fn signature_lines_len(spec: &SignSpec, params: &[u8]) -> u128
    requires { params.now ≡ sig_params_text spec.now.params }
    ensures is { result ≡ length (flat_map line_text (signature_lines spec.now any_tag)) }
    ensures small { result < 2 ^ 68 }
{
    let label = spec.label.bytes();
    member_line_len(b"Signature-Input", label, params.len())
        + member_line_len(b"Signature", label, TAG_TEXT_BYTES)
}

/// The lines of a signature with this tag, whose parameters have this text.
pub(crate) fn signature_lines(
    alloc: Global,
    spec: &SignSpec,
    params: &[u8],
    tag: &[u8],
) -> Result<Text, Memory>
    requires params { params.now ≡ sig_params_text spec.now.params }
    requires bytes { IsTrue (list_all is_byte tag.now) }
    ensures { IfOk result (λ text.
        text ≡ flat_map line_text (signature_lines spec.now tag.now)) }
{
    let label = spec.label.bytes();
    let value = print_bare(alloc, &BareItem::Bytes(Text::from_bytes(alloc, tag)?))?;
    let mut text = Text::with_capacity(alloc, params.len().saturating_add(SIGNATURE_ROOM))?;
    append_member(&mut text, b"Signature-Input", label, params)?;
    append_member(&mut text, b"Signature", label, value.bytes())?;
    Ok(text)
}
