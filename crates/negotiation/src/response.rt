//! Signs a response as its request asks.

ghost use Rattle.std.specs.Prelude.{◌≡◌, ◌≢◌, ◌≤◌, Some, IfOk, IsSome, map};
ghost use Rattle.std.specs.List.{All};
ghost use Rattle.byte_grammar.specs.Causes.{AnswersWhere};
ghost use Rattle.msg_body.specs.Views.{message_of};
ghost use Rattle.component_values.specs.Context.{HasWholeMessage, context_of};
ghost use Rattle.nonces.specs.declared.limits.TheConstants.{MAX_MOMENT};
ghost use Rattle.settings.specs.ConfMeaning.{meaning};
ghost use Rattle.signing.specs.Specs.{IsValidSpec};
ghost use Rattle.negotiation.specs.NegotiateCauses.{IsNegotiateFault};
ghost use Rattle.negotiation.specs.Negotiated.{SpellsNegotiated, with_digest_by};
ghost use Rattle.negotiation.specs.declared.fault.NegotiateFault.{NegotiateFault};
ghost use Rattle.negotiation.specs.tools.Judged.{ExplainsNegotiate, ExplainsSpecs, IsNegotiatedText};

use crate::digest::judge_digests;
use crate::each::sign_each;
use crate::fault::NegotiateFault;
use crate::preference::wished_digest;
use component_values::Context;
use content_digest::Algorithm;
use msg_body::MessageView;
use settings::Conf;
use sfv_text::{Memory, Text};
use signing::{SignSpec, Specs, wanted};
use std::alloc::Global;

/// The same signature, with the digest by the algorithm.
fn with_digest_by(alloc: Global, spec: &SignSpec, algorithm: Algorithm) -> Result<SignSpec, Memory>
    ensures { IfOk result (λ other. other ≡ with_digest_by (Some algorithm) spec.now) }
{
    Ok(SignSpec {
        label: spec.label.copy(alloc)?,
        params: spec.params.copy(alloc)?,
        key: spec.key.copy(alloc)?,
        digest: Some(algorithm),
    })
}

/// The same signatures, each with the digest by the algorithm.
fn all_with_digest_by(
    alloc: Global,
    specs: &[SignSpec],
    algorithm: Algorithm,
) -> Result<Specs, Memory>
    ensures { IfOk result (λ others. others ≡ map (with_digest_by (Some algorithm)) specs.now) }
{
    let mut others = Specs::with_capacity(alloc, specs.len())?;
    for spec in specs {
        others.push(with_digest_by(alloc, spec, algorithm)?)?;
    }
    Ok(others)
}

/// The signatures that the request wishes, with the digest that it asks for.
fn negotiated_specs(
    alloc: Global,
    request: &MessageView<'_>,
    conf: &Conf,
    now: u64,
    digest: Option<Algorithm>,
) -> Result<Specs, NegotiateFault>
    requires sign { IsSome (meaning conf.now).sign }
    requires now { now ≤ MAX_MOMENT }
    ensures explains { ExplainsSpecs (meaning conf.now) now (message_of request.now) digest result }
    ensures valid { IfOk result (All IsValidSpec) }
{
    let specs = wanted(alloc, request, conf, now)?;
    match digest {
        None => Ok(specs),
        Some(algorithm) => Ok(all_with_digest_by(alloc, specs.as_slice(), algorithm)?),
    }
}

fn judge(
    alloc: Global,
    context: &Context<'_, '_>,
    conf: &Conf,
    now: u64,
) -> Result<Text, NegotiateFault>
    requires sign { IsSome (meaning conf.now).sign }
    requires now { now ≤ MAX_MOMENT }
    requires request { IsSome (context_of context.now).related }
    requires whole { HasWholeMessage (context_of context.now) }
    ensures { ExplainsNegotiate (meaning conf.now) now (context_of context.now)
        (IsNegotiatedText (meaning conf.now) now (context_of context.now)) result }
{
    let Some(request) = context.related else {
        unreachable!()
    };
    let digest = wished_digest(alloc, request)?;
    judge_digests(alloc, context.message, digest)?;
    let specs = negotiated_specs(alloc, request, conf, now, digest)?;
    Ok(sign_each(alloc, context, specs.as_slice())?)
}

/// Signs a response with each signature that the field `Accept-Signature` of its request wishes, in
/// order (RFC 9421 section 5), over the digest that the request's `Want-Content-Digest` asks for
/// (RFC 9530 section 4), or else the configured one. The moment is in seconds since the epoch.
///
/// Of the algorithms `sha-256` and `sha-512` the one with the greatest preference is taken, the
/// first where both have it. A response with digests of its own keeps them, where they are right
/// and one of them is by that algorithm.
pub fn negotiate(
    alloc: Global,
    context: &Context<'_, '_>,
    conf: &Conf,
    now: u64,
) -> Result<Text, NegotiateFault>
    requires sign { IsSome (meaning conf.now).sign }
    requires now { now ≤ MAX_MOMENT }
    requires request { IsSome (context_of context.now).related }
    requires whole { HasWholeMessage (context_of context.now) }
    ensures ok { IfOk result
        (SpellsNegotiated (meaning conf.now) now (context_of context.now)) }

    // The first fault whose cause holds is answered, and no other.
    ensures fault { (fault : NegotiateFault) → fault ≢ NegotiateFault.Memory
        → AnswersWhere NegotiateFault.Memory result fault
        (IsNegotiateFault (meaning conf.now) now (context_of context.now) fault) }
{
    judge(alloc, context, conf, now)
}
