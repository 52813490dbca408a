//! What the fields of signatures say of a new label.

ghost use Rattle.std.specs.Prelude.{IfOk, IsFalse};
ghost use Rattle.msg_body.specs.Views.{message_of};
ghost use Rattle.signing.specs.SignCauses.{HasLabel};
ghost use Rattle.signing.specs.tools.Fields.{IsPlaceIn};

use memchr::memmem;
use msg_body::{MessageView, joined_value};
use msg_head::Side;
use sfv_text::Memory;
use signatures::{DictField, read_field};
use std::alloc::Global;

/// What a field says of a label.
#[derive(Clone, Copy)]
pub(crate) enum LabelPlace {
    /// The field is there, and is no Dictionary with a member.
    Malformed,
    /// A member has the label.
    Taken,
    /// A member of the label can be added.
    Free,
}

/// What the header field of the name says of the label.
pub(crate) fn label_place(
    alloc: Global,
    message: &MessageView<'_>,
    name: &[u8],
    label: &[u8],
) -> Result<LabelPlace, Memory>
    ensures { IfOk result (IsPlaceIn (message_of message.now) name.now label.now) }
{
    let dict = match read_field(alloc, message, name)? {
        DictField::Absent => return Ok(LabelPlace::Free),
        DictField::Malformed => return Ok(LabelPlace::Malformed),
        DictField::Dict(dict) => dict,
    };
    if dict.is_empty() {
        return Ok(LabelPlace::Malformed);
    }
    match dict.find(label) {
        Some(_) => Ok(LabelPlace::Taken),
        None => Ok(LabelPlace::Free),
    }
}

/// Whether the label stands in the value of the header field of the name. Where it doesn't, no
/// member has it.
pub(crate) fn is_mentioned(
    alloc: Global,
    message: &MessageView<'_>,
    name: &[u8],
    label: &[u8],
) -> Result<bool, Memory>
    ensures { IfOk result (λ mentioned. IsFalse mentioned
        → ¬ HasLabel (message_of message.now) name.now label.now) }
{
    let value = joined_value(alloc, message.lines_named(Side::Header, name))?;
    Ok(memmem::find(value.bytes(), label).is_some())
}
