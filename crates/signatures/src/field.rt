//! Header fields that are Dictionaries.

ghost use Rattle.std.specs.Prelude.{IfOk};
ghost use Rattle.msg_body.specs.Views.{message_of};
ghost use Rattle.signatures.specs.Fields.{IsFieldOf};

use msg_body::{MessageView, joined_value};
use msg_head::Side;
use sfv_read::{SfError, read_dict};
use sfv_text::{Dict, Memory};
use std::alloc::Global;

/// What was read of a header field that is to be a Dictionary (RFC 9651 section 3.2).
#[derive(Drop)]
pub enum DictField {
    /// No line has the name.
    Absent,
    /// The combined value is no Dictionary.
    Malformed,
    /// The combined value.
    Dict(Dict),
}

/// Reads the header field of the name, which is in lower case.
pub fn read_field(alloc: Global, view: &MessageView<'_>, name: &[u8]) -> Result<DictField, Memory>
    ensures { IfOk result (IsFieldOf (message_of view.now) name.now) }
{
    let lines = view.lines_named(Side::Header, name);
    if lines.is_empty() {
        return Ok(DictField::Absent);
    }
    let value = joined_value(alloc, lines)?;
    match read_dict(alloc, value.bytes()) {
        Ok(dict) => Ok(DictField::Dict(dict)),
        Err(SfError::Memory) => Err(Memory),
        Err(SfError::Syntax(_)) => Ok(DictField::Malformed),
    }
}
