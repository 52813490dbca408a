//! The fields of a context.

ghost use Rattle.std.specs.Prelude.{◌≡◌};
ghost use Rattle.component_values.specs.Values.{side_of};

use component_ids::{ComponentId, has_param};
use msg_head::Side;
use sfv_text::{Memory, Params, Text};
use std::alloc::Global;

/// The side whose lines a component is drawn from.
pub(crate) fn side_of(params: &Params) -> Side
    ensures { result ≡ side_of params.now }
{
    if has_param(params, b"tr") {
        Side::Trailer
    } else {
        Side::Header
    }
}

/// A field of a context. Its name is borrowed.
#[derive(Clone, Copy)]
pub(crate) struct FieldRef<'a> {
    /// Whether it is a field of the related request (RFC 9421 section 2.4).
    of_related: bool,
    /// The side of its lines.
    side: Side,
    /// Its name, in lower case.
    name: &'a [u8],
}

impl<'a> FieldRef<'a> {
    ghost use Rattle.std.specs.Prelude.{◌≡◌, IfOk};
    ghost use Rattle.component_values.specs.Readings.{field_of};
    ghost use Rattle.component_values.specs.tools.Rows.{field_meant};

    /// The field that the component is drawn from.
    pub(crate) fn of(id: &'a ComponentId) -> FieldRef<'a>
        ensures { field_meant result ≡ field_of id.now }
    {
        FieldRef {
            of_related: has_param(&id.params, b"req"),
            side: side_of(&id.params),
            name: id.name.bytes(),
        }
    }

    /// The field, with a name of its own.
    pub(crate) fn copy(self, alloc: Global) -> Result<ContextField, Memory>
        ensures { IfOk result (λ field. field ≡ field_meant self.entry) }
    {
        Ok(ContextField {
            of_related: self.of_related,
            side: self.side,
            name: Text::from_bytes(alloc, self.name)?,
        })
    }
}

/// A field of a context.
#[derive(Drop)]
pub(crate) struct ContextField {
    of_related: bool,
    side: Side,
    name: Text,
}

impl ContextField {
    ghost use Rattle.std.specs.Prelude.{◌≡◌, ◌↔◌, IsTrue};
    ghost use Rattle.component_values.specs.tools.Rows.{field_meant};

    /// Whether both are one field.
    pub(crate) fn is(&self, other: FieldRef<'_>) -> bool
        ensures { IsTrue result ↔ (self.now ≡ field_meant other.entry) }
    {
        self.of_related == other.of_related
            && self.side == other.side
            && self.name.bytes() == other.name
    }
}
