//! Which fields of a message its signature covers.

ghost use Rattle.std.specs.Prelude.{◌≡◌};
ghost use Rattle.component_values.specs.Alike.{is_own_field};
ghost use Rattle.msg_head.specs.Views.{field_line_of};
ghost use Rattle.line_rewrites.specs.Covered.{is_on, is_field_on, is_wrapped_on, covers_field, covers_lines};
ghost use Rattle.msg_body.specs.SameFields.{name_of};

use byte_grammar::is_field_name;
use component_ids::{ComponentId, SigParams, has_param};
use msg_head::{LineView, Side};

/// Whether the component is a field of the message itself (RFC 9421 section 2.1).
pub fn is_own_field(id: &ComponentId) -> bool
    ensures { result ≡ is_own_field id.now }
{
    is_field_name(id.name.bytes()) && !has_param(&id.params, b"req")
}

/// Whether the lines of the component are those of the side (RFC 9421 section 2.1.4).
fn is_on(side: Side, id: &ComponentId) -> bool
    ensures { result ≡ is_on side id.now }
{
    match side {
        Side::Header => !has_param(&id.params, b"tr"),
        Side::Trailer => has_param(&id.params, b"tr"),
    }
}

/// Whether the component is the field of the name on the side (RFC 9421 section 2.1).
pub fn is_field_on(side: Side, name: &[u8], id: &ComponentId) -> bool
    ensures { result ≡ is_field_on side name.now id.now }
{
    if !is_own_field(id) {
        return false;
    }
    is_on(side, id) && id.name.bytes() == name
}

/// Whether the component is the field that the line is of, on the side.
fn is_field_of(side: Side, line: LineView<'_>, id: &ComponentId) -> bool
    ensures { result ≡ is_field_on side (name_of (field_line_of line.entry)) id.now }
{
    if !is_own_field(id) {
        return false;
    }
    is_on(side, id) && line.is_named(id.name.bytes())
}

/// Whether the component is that field line by line.
fn is_wrapped_on(side: Side, line: LineView<'_>, id: &ComponentId) -> bool
    ensures { result ≡ is_wrapped_on side (name_of (field_line_of line.entry)) id.now }
{
    is_field_of(side, line, id) && has_param(&id.params, b"bs")
}

/// Whether a component is the field that the line is of, on the side (RFC 9421 section 2.1).
pub fn covers_field(side: Side, line: LineView<'_>, params: &SigParams) -> bool
    ensures { result ≡ covers_field side (name_of (field_line_of line.entry)) params.now }
{
    params.ids.iter().any(|id| is_field_of(side, line, id))
}

/// Whether a component is that field line by line (RFC 9421 section 2.1.3).
pub(crate) fn covers_lines(side: Side, line: LineView<'_>, params: &SigParams) -> bool
    ensures { result ≡ covers_lines side (name_of (field_line_of line.entry)) params.now }
{
    params.ids.iter().any(|id| is_wrapped_on(side, line, id))
}
