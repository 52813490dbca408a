//! Signs a message.

ghost use Rattle.std.specs.Prelude.{◌≡◌, ◌≢◌, ◌++◌, IfOk, IsTrue};
ghost use Rattle.byte_grammar.specs.Causes.{AnswersWhere};
ghost use Rattle.msg_body.specs.Messages.{Spells};
ghost use Rattle.component_values.specs.Context.{HasWholeMessage, MessageContext, answers_head, context_of};
ghost use Rattle.component_values.specs.Values.{HaveValues};
ghost use Rattle.signing.specs.declared.fault.SignFault.{SignFault};
ghost use Rattle.signing.specs.SignCauses.{IsSignFault};
ghost use Rattle.signing.specs.Signed.{HasSomeSignature, IsSigned, IsVerifiable, SpellsSigned};
ghost use Rattle.signing.specs.Specs.{IsValidSpec};
ghost use Rattle.signing.specs.Written.{context_with_digest, with_digest};
ghost use Rattle.signing.specs.tools.Judged.{AreJudgedParts, ExplainsSign, IsMade, NoneBelow, label_judged};

use crate::fault::SignFault;
use crate::limit::{limit_of_signed, limit_of_unprinted, passed_limit};
use crate::lines::{AddedLines, digest_lines, signature_lines};
use crate::mac::{lack_fault_of, tag_of};
use crate::parts::{Parts, parts_of};
use crate::refuse::{judge_components, judge_fields};
use crate::spec::SignSpec;
use component_values::{Context, Prepared, prepare};
use msg_body::{MessageError, read_other_head};
use sfv_text::{Memory, Text};
use std::alloc::Global;

/// The bytes of a message of these parts with further lines, given by their bytes.
fn text_of(alloc: Global, parts: Parts<'_>, digest: &[u8], signature: &[u8]) -> Result<Text, Memory>
    ensures { IfOk result (λ text. text
        ≡ parts.entry.before.now ++ (digest.now ++ (signature.now ++ parts.entry.after.now))) }
{
    let added = digest.len().saturating_add(signature.len());
    let kept = parts.before.len().saturating_add(parts.after.len());
    let mut text = Text::with_capacity(alloc, kept.saturating_add(added))?;
    text.append(parts.before)?;
    text.append(digest)?;
    text.append(signature)?;
    text.append(parts.after)?;
    Ok(text)
}

/// The signed message of prepared components, where it passes no limit.
fn make_of_prepared(
    alloc: Global,
    prepared: &Prepared<'_, '_>,
    spec: &SignSpec,
    parts: Parts<'_>,
    digest: &AddedLines,
) -> Result<Text, SignFault>
    requires { prepared.now.params ≡ spec.now.params }
    ensures { (context : MessageContext) → AreJudgedParts context spec.now parts.entry digest.now
        → HaveValues (context_with_digest context spec.now.digest) spec.now.params.ids
        prepared.now.values
        → ExplainsSign context spec.now (IsMade context spec.now) result }
{
    let params = prepared.params_text();
    if let Some(limit) = limit_of_signed(spec, parts, digest, params) {
        return Err(SignFault::TooLong(limit));
    }
    let tag = tag_of(prepared, &spec.key);
    let signature = signature_lines(alloc, spec, params, &tag)?;
    Ok(text_of(alloc, parts, digest.text.bytes(), signature.bytes())?)
}

/// The signed message, where the message of the context has the line of its digest. A limit that it
/// passes comes before a value that a component lacks.
fn make_of_context(
    alloc: Global,
    context: &Context<'_, '_>,
    spec: &SignSpec,
    parts: Parts<'_>,
    digest: &AddedLines,
) -> Result<Text, SignFault>
    requires valid { IsValidSpec spec.now }
    ensures { (unsigned : MessageContext)
        → context_of context.now ≡ context_with_digest unsigned spec.now.digest
        → AreJudgedParts unsigned spec.now parts.entry digest.now
        → ExplainsSign unsigned spec.now (IsMade unsigned spec.now) result }
{
    match prepare(alloc, context, &spec.params) {
        Ok(prepared) => make_of_prepared(alloc, &prepared, spec, parts, digest),
        Err(fault) => match limit_of_unprinted(alloc, spec, parts, digest)? {
            Some(limit) => Err(SignFault::TooLong(limit)),
            None => Err(lack_fault_of(fault)),
        },
    }
}

/// Out of memory, which is the one error of a head that is known to be there.
fn only_memory(error: MessageError) -> SignFault
    requires { error ≡ MessageError.Memory }
    ensures { result ≡ SignFault.Memory }
{
    match error {
        MessageError::Memory => SignFault::Memory,
        _ => unreachable!(),
    }
}

/// The signed message, where these are the bytes of the message with the line of its digest.
fn make_of_bytes(
    alloc: Global,
    bytes: &[u8],
    context: &Context<'_, '_>,
    spec: &SignSpec,
    parts: Parts<'_>,
    digest: &AddedLines,
) -> Result<Text, SignFault>
    requires valid { IsValidSpec spec.now }
    requires judged { AreJudgedParts (context_of context.now) spec.now parts digest.now }
    requires spells { Spells (answers_head (context_of context.now).related)
        (with_digest (context_of context.now).message spec.now.digest) bytes.now }
    ensures { ExplainsSign (context_of context.now) spec.now
        (IsMade (context_of context.now) spec.now) result }
{
    match read_other_head(alloc, context.message, bytes) {
        Ok(message) => {
            let with_digest = Context {
                message: &message,
                ..*context
            };
            make_of_context(alloc, &with_digest, spec, parts, digest)
        }
        Err(error) => Err(only_memory(error)),
    }
}

/// The signed message, where the line of its digest is added.
fn make_with_digest(
    alloc: Global,
    context: &Context<'_, '_>,
    spec: &SignSpec,
    parts: Parts<'_>,
    digest: &AddedLines,
) -> Result<Text, SignFault>
    requires valid { IsValidSpec spec.now }
    requires whole { HasWholeMessage (context_of context.now) }
    requires judged { AreJudgedParts (context_of context.now) spec.now parts digest.now }
    ensures { ExplainsSign (context_of context.now) spec.now
        (IsMade (context_of context.now) spec.now) result }
{
    let bytes = digest.text.bytes();
    if passed_limit(parts, bytes.len() as u128, digest.count as u128).is_some() {
        return match limit_of_unprinted(alloc, spec, parts, digest)? {
            Some(limit) => Err(SignFault::TooLong(limit)),
            None => unreachable!(),
        };
    }
    let text = text_of(alloc, parts, bytes, &[])?;
    make_of_bytes(alloc, text.bytes(), context, spec, parts, digest)
}

/// The signed message, where it passes no limit and no component lacks a value.
fn make(alloc: Global, context: &Context<'_, '_>, spec: &SignSpec) -> Result<Text, SignFault>
    requires valid { IsValidSpec spec.now }
    requires whole { HasWholeMessage (context_of context.now) }
    requires judged { NoneBelow (context_of context.now) spec.now label_judged }
    ensures { ExplainsSign (context_of context.now) spec.now
        (IsMade (context_of context.now) spec.now) result }
{
    let digest = digest_lines(alloc, context.message, spec.digest)?;
    let parts = parts_of(context.message);
    if digest.count == 0 {
        return make_of_context(alloc, context, spec, parts, &digest);
    }
    make_with_digest(alloc, context, spec, parts, &digest)
}

fn judge(
    alloc: Global,
    context: &Context<'_, '_>,
    spec: &SignSpec,
    has_signature: bool,
) -> Result<Text, SignFault>
    requires valid { IsValidSpec spec.now }
    requires whole { HasWholeMessage (context_of context.now) }
    requires signature { IsTrue has_signature → HasSomeSignature (context_of context.now).message }
    ensures { ExplainsSign (context_of context.now) spec.now
        (IsMade (context_of context.now) spec.now) result }
{
    judge_fields(alloc, context, spec, has_signature)?;
    judge_components(spec)?;
    make(alloc, context, spec)
}

/// Signs the message of the context (RFC 9421 section 3.1).
///
/// The answer is the message with these lines after its header lines: `Content-Digest`, where a
/// digest is asked for and the header has no such line (RFC 9530 section 2), then
/// `Signature-Input` and `Signature` with a member of the label each.
pub fn sign(alloc: Global, context: &Context<'_, '_>, spec: &SignSpec) -> Result<Text, SignFault>
    requires valid { IsValidSpec spec.now }
    requires whole { HasWholeMessage (context_of context.now) }
    ensures ok { IfOk result (IsSigned (context_of context.now) spec.now) }
    ensures spells { IfOk result (SpellsSigned (context_of context.now) spec.now) }
    ensures verifiable { IfOk result (IsVerifiable (context_of context.now) spec.now) }

    // The first fault whose cause holds is answered, and no other.
    ensures fault { (fault : SignFault) → fault ≢ SignFault.Memory → AnswersWhere SignFault.Memory
        result fault (IsSignFault (context_of context.now) spec.now fault) }
{
    judge(alloc, context, spec, false)
}

/// Signs the message of the context, which has a signature, as `sign` does. Where the new label
/// stands nowhere in the fields of signatures, they aren't read.
pub fn sign_beside(
    alloc: Global,
    context: &Context<'_, '_>,
    spec: &SignSpec,
) -> Result<Text, SignFault>
    requires valid { IsValidSpec spec.now }
    requires whole { HasWholeMessage (context_of context.now) }
    requires signature { HasSomeSignature (context_of context.now).message }
    ensures ok { IfOk result (IsSigned (context_of context.now) spec.now) }
    ensures spells { IfOk result (SpellsSigned (context_of context.now) spec.now) }
    ensures verifiable { IfOk result (IsVerifiable (context_of context.now) spec.now) }

    // The first fault whose cause holds is answered, and no other.
    ensures fault { (fault : SignFault) → fault ≢ SignFault.Memory → AnswersWhere SignFault.Memory
        result fault (IsSignFault (context_of context.now) spec.now fault) }
{
    judge(alloc, context, spec, true)
}
