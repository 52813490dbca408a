//! Components that a new signature would change.

ghost use Rattle.std.specs.Prelude.{◌≡◌, false, [], ◌∷◌, IfSome, IfNone};
ghost use Rattle.std.specs.List.{list_any};
ghost use Rattle.signatures.specs.Signatures.{input_name, signature_name};
ghost use Rattle.component_values.specs.Forms.{member_key};
ghost use Rattle.component_ids.specs.Table.{is_listed};
ghost use Rattle.signing.specs.SignCauses.{covers_itself, is_label_or_none, IsFirstSelfCover};

use component_ids::{ComponentId, has_param};

fn is_signature_field(name: &[u8]) -> bool
    ensures { result ≡ is_listed (signature_name ∷ input_name ∷ []) name.now }
{
    name == b"signature".as_slice() || name == b"signature-input".as_slice()
}

/// Whether the component has no key, or the label as its key.
fn is_label_or_none(label: &[u8], id: &ComponentId) -> bool
    ensures { result ≡ is_label_or_none label.now (member_key id.now.params) }
{
    match id.params.string(b"key") {
        Some(key) => key.bytes() == label,
        None => true,
    }
}

fn covers_itself(label: &[u8], id: &ComponentId) -> bool
    ensures { result ≡ covers_itself label.now id.now }
{
    is_signature_field(id.name.bytes())
        && !has_param(&id.params, b"req")
        && !has_param(&id.params, b"tr")
        && is_label_or_none(label, id)
}

/// The index of the first component that covers what a new signature of the label changes: one of
/// the header's two fields of signatures, whole, or its member of the label.
pub fn first_self_cover(label: &[u8], ids: &[ComponentId]) -> Option<usize>
    ensures some { IfSome result (IsFirstSelfCover label.now ids.now) }
    ensures none { IfNone result (list_any (covers_itself label.now) ids.now ≡ false) }
{
    for (index, id) in ids.iter().enumerate() {
        if covers_itself(label, id) {
            return Some(index);
        }
    }
    None
}
