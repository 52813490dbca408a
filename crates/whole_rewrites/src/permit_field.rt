//! Which signatures permit another form of fields: of those that frame, of signatures, and of
//! structured fields.

ghost use Rattle.std.specs.Prelude.{◌≡◌, ◌↔◌, IsTrue, IsFalse, IfOk, codes};
ghost use Rattle.std.specs.List.{list_any};
ghost use Rattle.std.specs.Str.{str_to_ascii_lowercase};
ghost use Rattle.component_ids.specs.Table.{is_listed};
ghost use Rattle.component_ids.specs.declared.params.SigParams.{SigParams};
ghost use Rattle.msg_body.specs.Views.{message_of};
ghost use Rattle.msg_head.specs.declared.error.Side.TheVariants.{Header};
ghost use Rattle.line_rewrites.specs.Covered.{covers_field};
ghost use Rattle.line_rewrites.specs.Permitted.{counted_names};
ghost use Rattle.whole_rewrites.specs.Conditions.{IsMetBy};
ghost use Rattle.whole_rewrites.specs.Covered.{covers_unread, rests_on_label};
ghost use Rattle.whole_rewrites.specs.Permitted.{LacksLabel, MayAddLabel, MayFrameAnew};

use crate::condition::WholeCondition;
use crate::covered::rests_on_label;
use byte_grammar::is_listed;
use component_ids::SigParams;
use line_rewrites::covers_field;
use msg_body::{MessageView, joined_value};
use msg_head::{LineView, Side};
use sfv_read::{SfError, has_key};
use sfv_text::Memory;
use std::alloc::Global;

/// The fields of which the number of lines counts (RFC 9110 section 7.2, RFC 9112 section 6).
const COUNTED_NAMES: [&[u8]; 3] = [b"host", b"content-length", b"transfer-encoding"];

/// Whether the field of the name, which is in lower case, is covered in the header.
fn covers_header(name: &[u8], params: &SigParams) -> bool
    requires { str_to_ascii_lowercase name.now ≡ name.now }
    ensures { result ≡ covers_field Header name.now params.now }
{
    covers_field(Side::Header, LineView { name, raw: b"" }, params)
}

/// Whether no field that frames is covered: content may be sent in another way.
pub(crate) fn is_framing_uncovered(params: &SigParams) -> bool
    ensures { IsTrue result ↔ MayFrameAnew params.now }
{
    !covers_header(b"content-length", params) && !covers_header(b"transfer-encoding", params)
}

/// Whether `Host` isn't covered.
pub(crate) fn is_host_uncovered(params: &SigParams) -> bool
    ensures { IsTrue result ↔ IsFalse (covers_field Header (codes "host") params.now) }
{
    !covers_header(b"host", params)
}

/// Whether the header has the field, and it reads as a Dictionary without the label.
fn lacks_label(
    alloc: Global,
    message: &MessageView<'_>,
    name: &[u8],
    label: &[u8],
) -> Result<bool, Memory>
    ensures { IfOk result (λ lacks.
        IsTrue lacks ↔ LacksLabel (message_of message.now) name.now label.now) }
{
    let lines = message.lines_named(Side::Header, name);
    if lines.is_empty() {
        return Ok(false);
    }
    let value = joined_value(alloc, lines)?;
    match has_key(alloc, value.bytes(), label) {
        Ok(has) => Ok(!has),
        Err(SfError::Memory) => Err(Memory),
        Err(SfError::Syntax(_)) => Ok(false),
    }
}

/// Whether a component rests on the lines of the label's signature.
pub(crate) fn rests_on(label: &[u8], params: &SigParams) -> bool
    ensures { result ≡ list_any (rests_on_label label.now) params.now.ids }
{
    params.ids.iter().any(|id| rests_on_label(label, id))
}

/// What a further label asks: the message has no such label yet.
pub(crate) fn label_condition<'s>(
    alloc: Global,
    message: &MessageView<'_>,
    label: &'s [u8],
) -> Result<WholeCondition<'s>, Memory>
    ensures { IfOk result (λ condition. (params : SigParams) → IsMetBy params condition
        ↔ MayAddLabel (message_of message.now) label.now params) }
{
    if !lacks_label(alloc, message, b"signature-input", label)? {
        return Ok(WholeCondition::Never);
    }
    if !lacks_label(alloc, message, b"signature", label)? {
        return Ok(WholeCondition::Never);
    }
    Ok(WholeCondition::LabelUncovered { label })
}

/// Whether the number of lines of the name counts, whatever is covered.
fn is_counted(name: &[u8]) -> bool
    ensures { result ≡ is_listed counted_names name.now }
{
    is_listed(&COUNTED_NAMES, name)
}

/// What the strict text of the field on the side asks (RFC 9421 section 2.1.1).
pub(crate) fn strict_condition(side: Side, name: &[u8]) -> WholeCondition<'_>
    ensures { (params : SigParams) → IsMetBy params result
        ↔ (IsFalse (is_listed counted_names name.now)
        × IsFalse (covers_unread side name.now params)) }
{
    if is_counted(name) {
        WholeCondition::Never
    } else {
        WholeCondition::UnreadUncovered { side, name }
    }
}
