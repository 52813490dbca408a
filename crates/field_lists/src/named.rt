//! Fields of a name.

ghost use Rattle.std.specs.Prelude.{◌≡◌, ◌∷◌, [], IfSome, IfNone, filter};
ghost use Rattle.field_lists.specs.ToMessages.{has_field};
ghost use Rattle.field_lists.specs.tools.Sizes.{is_named};

use list_texts::Field;

/// The first field of that name, and the fields after it.
pub(crate) fn split_named<'l>(name: &[u8], fields: &'l [Field]) -> Option<(&'l Field, &'l [Field])>
    ensures some { IfSome result (λ parts. filter (is_named name.now) fields.now
        ≡ parts.0.now ∷ filter (is_named name.now) parts.1.now) }
    ensures none { IfNone result (filter (is_named name.now) fields.now ≡ []) }
{
    let mut left = fields;
    'fields: while let Some((field, after)) = left.split_first() {
        if field.name.bytes() == name {
            return Some((field, after));
        }
        left = after;
    }
    None
}

/// Whether a field has that name.
pub(crate) fn has_field(name: &[u8], fields: &[Field]) -> bool
    ensures { result ≡ has_field name.now fields.now }
{
    fields.iter().any(|field| field.name.bytes() == name)
}
