//! What a signature covers of the derived components and of what fields read as (RFC 9421 sections
//! 2.1 and 2.2).

ghost use Rattle.std.specs.Prelude.{◌≡◌, map};
ghost use Rattle.whole_rewrites.specs.Covered.{covers_one_of, covers_unread, is_of_other, is_own_of, is_unread_on, rests_on_label};

use byte_grammar::is_listed;
use component_ids::{ComponentId, SigParams, has_param};
use line_rewrites::is_field_on;
use msg_head::Side;

/// Whether the component is of the message itself, and has one of the names.
pub(crate) fn is_own_of(names: &[&[u8]], id: &ComponentId) -> bool
    ensures { result ≡ is_own_of (map (λ name. name.now) names.now) id.now }
{
    !has_param(&id.params, b"req") && is_listed(names, id.name.bytes())
}

/// Whether a component of the message itself has one of the names.
pub(crate) fn covers_one_of(names: &[&[u8]], params: &SigParams) -> bool
    ensures { result ≡ covers_one_of (map (λ name. name.now) names.now) params.now }
{
    params.ids.iter().any(|id| is_own_of(names, id))
}

/// Whether the component is that field, and neither its strict form nor a member of it.
fn is_unread_on(side: Side, name: &[u8], id: &ComponentId) -> bool
    ensures { result ≡ is_unread_on side name.now id.now }
{
    is_field_on(side, name, id) && !(has_param(&id.params, b"sf") || has_param(&id.params, b"key"))
}

/// Whether a component is that field, and no value that it reads as (RFC 9421 sections 2.1.1 and
/// 2.1.2).
pub(crate) fn covers_unread(side: Side, name: &[u8], params: &SigParams) -> bool
    ensures { result ≡ covers_unread side name.now params.now }
{
    params.ids.iter().any(|id| is_unread_on(side, name, id))
}

/// Whether the component is the member of another label.
fn is_of_other(added: &[u8], id: &ComponentId) -> bool
    ensures { result ≡ is_of_other added.now id.now }
{
    match id.params.string(b"key") {
        Some(key) => key.bytes() != added,
        None => false,
    }
}

/// Whether the component is a field of signatures of the header, and not the member of another
/// label there (RFC 9421 sections 4.1 and 4.2).
pub(crate) fn rests_on_label(added: &[u8], id: &ComponentId) -> bool
    ensures { result ≡ rests_on_label added.now id.now }
{
    let is_signed = is_field_on(Side::Header, b"signature-input", id)
        || is_field_on(Side::Header, b"signature", id);
    is_signed && !is_of_other(added, id)
}
