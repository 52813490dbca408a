//! Signs a message more than once.

ghost use Rattle.std.specs.Prelude.{◌≡◌, ◌≢◌, IfOk};
ghost use Rattle.std.specs.List.{All};
ghost use Rattle.byte_grammar.specs.Causes.{AnswersWhere};
ghost use Rattle.component_values.specs.Context.{HasWholeMessage, context_of};
ghost use Rattle.signing.specs.Specs.{IsValidSpec};
ghost use Rattle.negotiation.specs.Each.{IsEachFault, SpellsEach};
ghost use Rattle.negotiation.specs.declared.fault.EachFault.{EachFault};
ghost use Rattle.negotiation.specs.tools.Signing.{ExplainsEach, ExplainsNext, IsSignedText, fault_at};

use crate::fault::EachFault;
use component_values::Context;
use msg_body::{MessageError, read_other_head};
use sfv_text::Text;
use signing::{SignFault, SignSpec, sign, sign_beside};
use std::alloc::Global;

/// The fault of the signature at the index.
fn fault_at(index: usize, fault: SignFault) -> EachFault
    ensures { result ≡ fault_at index fault }
{
    match fault {
        SignFault::Memory => EachFault::Memory,
        _ => EachFault::Sign(index, fault),
    }
}

/// Out of memory, which is the one error of a text that is a message.
fn only_memory(error: MessageError) -> SignFault
    requires { error ≡ MessageError.Memory }
    ensures { result ≡ SignFault.Memory }
{
    match error {
        MessageError::Memory => SignFault::Memory,
        _ => unreachable!(),
    }
}

/// The message of these bytes with one more signature. It has another head than the message of the
/// context, and the same content.
fn sign_again(
    alloc: Global,
    context: &Context<'_, '_>,
    bytes: &[u8],
    spec: &SignSpec,
) -> Result<Text, SignFault>
    requires valid { IsValidSpec spec.now }
    requires signed { IsSignedText (context_of context.now) bytes.now }
    ensures { ExplainsNext (context_of context.now) bytes.now spec.now result }
{
    match read_other_head(alloc, context.message, bytes) {
        Ok(message) => {
            let context = Context {
                message: &message,
                ..*context
            };
            sign_beside(alloc, &context, spec)
        }
        Err(error) => Err(only_memory(error)),
    }
}

/// Signs the message of the context, and then what that gave, and so on.
fn judge(alloc: Global, context: &Context<'_, '_>, specs: &[SignSpec]) -> Result<Text, EachFault>
    requires valid { All IsValidSpec specs.now }
    requires whole { HasWholeMessage (context_of context.now) }
    ensures { ExplainsEach (context_of context.now) specs.now result }
{
    let Some((first, others)) = specs.split_first() else {
        return Ok(Text::from_bytes(alloc, context.message.bytes())?);
    };
    let mut text = match sign(alloc, context, first) {
        Ok(text) => text,
        Err(fault) => return Err(fault_at(0, fault)),
    };
    for (index, spec) in others.iter().enumerate() {
        text = match sign_again(alloc, context, text.bytes(), spec) {
            Ok(text) => text,
            Err(fault) => return Err(fault_at(index + 1, fault)),
        };
    }
    Ok(text)
}

/// Signs the message of the context with each of these signatures in order, each over the message
/// that the one before it gave (RFC 9421 section 3.1). The line of a digest is made once: where the
/// first of them adds it, it is there for the others.
pub fn sign_each(
    alloc: Global,
    context: &Context<'_, '_>,
    specs: &[SignSpec],
) -> Result<Text, EachFault>
    requires valid { All IsValidSpec specs.now }
    requires whole { HasWholeMessage (context_of context.now) }
    ensures ok { IfOk result (SpellsEach (context_of context.now) specs.now) }

    // The first fault whose cause holds is answered, and no other.
    ensures fault { (fault : EachFault) → fault ≢ EachFault.Memory → AnswersWhere EachFault.Memory
        result fault (IsEachFault (context_of context.now) specs.now fault) }
{
    judge(alloc, context, specs)
}
