//! What refuses a message before anything is made of it.

ghost use Rattle.std.specs.Prelude.{◌≡◌, IsTrue};
ghost use Rattle.component_values.specs.Context.{MessageContext, context_of};
ghost use Rattle.signing.specs.Signed.{HasSomeSignature};
ghost use Rattle.signing.specs.tools.Fields.{fault_of_places};
ghost use Rattle.signing.specs.tools.Judged.{ExplainsSign, NoneBelow, fields_judged, label_judged};

use crate::fault::SignFault;
use crate::place::{LabelPlace, is_mentioned, label_place};
use crate::self_cover::first_self_cover;
use crate::spec::SignSpec;
use component_values::Context;
use std::alloc::Global;

/// The fault by what the two fields of signatures say of the label.
fn fault_of_places(input: LabelPlace, signature: LabelPlace) -> Option<SignFault>
    ensures { result ≡ fault_of_places input signature }
{
    match (input, signature) {
        (LabelPlace::Malformed, _) => Some(SignFault::InputMalformed),
        (_, LabelPlace::Malformed) => Some(SignFault::SignatureMalformed),
        (LabelPlace::Taken, _) | (_, LabelPlace::Taken) => Some(SignFault::LabelThere),
        (LabelPlace::Free, LabelPlace::Free) => None,
    }
}

/// Whether a member of the label can be added to both fields. A message that is known to have a
/// signature has two Dictionaries with a member: they aren't read where the label stands nowhere in
/// them.
pub(crate) fn judge_fields(
    alloc: Global,
    context: &Context<'_, '_>,
    spec: &SignSpec,
    has_signature: bool,
) -> Result<(), SignFault>
    requires { IsTrue has_signature → HasSomeSignature (context_of context.now).message }
    ensures { ExplainsSign (context_of context.now) spec.now
        (λ _. NoneBelow (context_of context.now) spec.now fields_judged) result }
{
    let label = spec.label.bytes();
    if has_signature {
        let in_input = is_mentioned(alloc, context.message, b"signature-input", label)?;
        let in_signature = is_mentioned(alloc, context.message, b"signature", label)?;
        if !in_input && !in_signature {
            return Ok(());
        }
    }
    let input = label_place(alloc, context.message, b"signature-input", label)?;
    let signature = label_place(alloc, context.message, b"signature", label)?;
    match fault_of_places(input, signature) {
        Some(fault) => Err(fault),
        None => Ok(()),
    }
}

/// Whether the signature doesn't cover itself, where its label can be added.
pub(crate) fn judge_components(spec: &SignSpec) -> Result<(), SignFault>
    ensures { (context : MessageContext) → NoneBelow context spec.now fields_judged
        → ExplainsSign context spec.now (λ _. NoneBelow context spec.now label_judged) result }
{
    match first_self_cover(spec.label.bytes(), spec.params.ids.as_slice()) {
        Some(index) => Err(SignFault::SelfCover(index)),
        None => Ok(()),
    }
}
