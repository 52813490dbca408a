//! A further label: the lines of its signature (RFC 9421 section 4).

ghost use Rattle.std.specs.Prelude.{◌≡◌, ◌++◌, codes, IsTrue, OnOk};
ghost use Rattle.msg_head.specs.Lines.{line_text};
ghost use Rattle.component_values.specs.Context.{HasWholeMessage, context_of};
ghost use Rattle.rewrite_script.specs.Lines.{is_whole_writable};
ghost use Rattle.rewrite_script.specs.declared.rewrite.WholeRewrite.TheVariants.{AddLabel};
ghost use Rattle.line_rewrites.specs.Sides.{text_with};
ghost use Rattle.whole_rewrites.specs.Lines.{label_lines, member_line};
ghost use Rattle.whole_rewrites.specs.tools.Judged.{Offers};

use crate::content::header_of;
use component_values::Context;
use line_rewrites::{ApplyFault, SideLines};
use sfv_text::{Memory, Text};
use std::alloc::Global;

/// Adds what comes before the text of a line of a Dictionary of one member.
fn append_member_start(name: &[u8], key: &[u8], into: &mut Text) -> Result<(), Memory>
    ensures { OnOk result
        (into.new ≡ into.old ++ (name.now ++ (codes ": " ++ (key.now ++ codes "=")))) }
{
    into.append(name)?;
    into.append(b": ")?;
    into.append(key)?;
    into.append(b"=")
}

/// Adds the line of the parameters of the label's signature.
fn append_input_line(label: &[u8], params: &[u8], into: &mut Text) -> Result<(), Memory>
    ensures { OnOk result (into.new ≡ into.old
        ++ line_text (member_line (codes "Signature-Input") label.now params.now)) }
{
    append_member_start(b"Signature-Input", label, into)?;
    into.append(params)?;
    into.append(b"\r\n")
}

/// Adds the line of the tag of the label's signature.
fn append_signature_line(label: &[u8], tag: &[u8], into: &mut Text) -> Result<(), Memory>
    ensures { OnOk result (into.new ≡ into.old ++ line_text
        (member_line (codes "Signature") label.now (codes ":" ++ (tag.now ++ codes ":")))) }
{
    append_member_start(b"Signature", label, into)?;
    into.append(b":")?;
    into.append(tag)?;
    into.append(b":\r\n")
}

/// Adds the message's bytes, the lines of the label's signature after those of the side.
fn append_labelled(
    lines: &SideLines<'_, '_>,
    label: &[u8],
    tag: &[u8],
    params: &[u8],
    into: &mut Text,
) -> Result<(), Memory>
    ensures { OnOk result (into.new ≡ into.old ++ text_with lines.now
        (lines.now.lines ++ label_lines label.now tag.now params.now)) }
{
    let count = lines.count();
    into.append(lines.before(count))?;
    append_input_line(label, params, into)?;
    append_signature_line(label, tag, into)?;
    into.append(lines.rest_from(count))
}

/// How many bytes the lines of the label's signature have.
fn lines_len(label: &[u8], tag: &[u8], params: &[u8]) -> usize {
    let own = b"Signature-Input: =\r\nSignature: =::\r\n".len();
    own.saturating_add(label.len())
        .saturating_add(label.len())
        .saturating_add(tag.len())
        .saturating_add(params.len())
}

/// The bytes of the message, the lines of a further label at the end of its header (RFC 9421
/// section 4).
pub(crate) fn with_label(
    alloc: Global,
    context: &Context<'_, '_>,
    label: &[u8],
    tag: &[u8],
    params: &[u8],
) -> Result<Text, ApplyFault>
    requires writable { IsTrue (is_whole_writable (AddLabel label.now tag.now params.now)) }
    requires whole { HasWholeMessage (context_of context.now) }
    ensures { Offers (context_of context.now) (AddLabel label.now tag.now params.now) result }
{
    let lines = header_of(context.message);
    let room = context
        .message
        .bytes()
        .len()
        .saturating_add(lines_len(label, tag, params));
    let mut rewritten = Text::with_capacity(alloc, room)?;
    append_labelled(&lines, label, tag, params, &mut rewritten)?;
    Ok(rewritten)
}
