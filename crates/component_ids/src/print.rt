//! Identifiers as text.

ghost use Rattle.std.specs.Prelude.{◌≡◌, ◌++◌, IsTrue, IfOk, OnOk};
ghost use Rattle.std.specs.List.{list_all};
ghost use Rattle.sfv_text.specs.Range.{is_string_byte};
ghost use Rattle.component_ids.specs.Identifiers.{id_text, is_id_in_range};

use crate::id::ComponentId;
use sfv_text::{Memory, Text, append_string_item};
use std::alloc::Global;

/// Adds the strict text of the identifier at the end.
pub(crate) fn append_id(id: &ComponentId, text: &mut Text) -> Result<(), Memory>
    ensures { OnOk result (text.new ≡ text.old ++ id_text id.now) }
{
    append_string_item(id.name.bytes(), &id.params, text)
}

/// The strict text of an identifier (RFC 9421 section 2.5), as a line of a signature base begins.
#[tactic(auto, using(crate::proofs::PrintLaws::id_is_printable))]
pub fn print_id(alloc: Global, id: &ComponentId) -> Result<Text, Memory>
    requires { IsTrue (is_id_in_range id.now) }
    ensures is { IfOk result (λ text. text ≡ id_text id.now) }
    ensures printable { IfOk result (λ text. IsTrue (list_all is_string_byte text)) }
{
    let mut text = Text::new(alloc);
    append_id(id, &mut text)?;
    Ok(text)
}
