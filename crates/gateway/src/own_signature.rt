//! The signature of the gateway itself.

ghost use Rattle.std.specs.Prelude.{◌≤◌, ◌≢◌, IfOk, IsSome};
ghost use Rattle.component_values.specs.Context.{HasWholeMessage, MessageContext, context_of};
ghost use Rattle.nonces.specs.declared.limits.TheConstants.{MAX_MOMENT};
ghost use Rattle.settings.specs.ConfMeaning.{meaning};
ghost use Rattle.signing.specs.SignCauses.{IsSignFault};
ghost use Rattle.signing.specs.Specs.{IsValidSpec};
ghost use Rattle.signing.specs.declared.fault.SignFault.{SignFault};
ghost use Rattle.component_ids.specs.declared.params.SigParams.{SigParams};
ghost use Rattle.gateway.specs.Forwarded.{IsHeldFor};
ghost use Rattle.gateway.specs.tools.Judged.{SaysForwarded, SaysSigned};
ghost use Rattle.gateway.specs.tools.Walked.{HasSignatureOf};

use crate::accepted::AcceptedLabel;
use crate::gateway_record::HeldFault;
use component_values::Context;
use framing::is_request;
use settings::Conf;
use sfv_text::{Memory, Text};
use signing::{SignFault, SignSpec, first_self_cover, sign_beside, spec_of};
use std::alloc::Global;

/// What comes of an accepted message.
#[derive(Drop)]
pub(crate) enum Forwarded {
    /// It goes on: the signed message.
    Signed(Text),
    /// It is held.
    Held(HeldFault),
}

/// Why the message isn't signed.
fn held_fault(alloc: Global, spec: &SignSpec, fault: SignFault) -> Result<HeldFault, Memory>
    requires { (context : MessageContext)
        × (fault ≢ SignFault.Memory → IsSignFault context spec.now fault) }
    ensures { (context : MessageContext) (params : SigParams)
        → (fault ≢ SignFault.Memory → IsSignFault context spec.now fault)
        → IfOk result (IsHeldFor context params spec.now) }
{
    match fault {
        SignFault::Memory => Err(Memory),
        SignFault::Lacks(index, lack) => {
            let id = spec.params.ids.as_slice()[index].copy(alloc)?;
            Ok(HeldFault::Lacks(lack, id))
        }
        _ => Ok(HeldFault::Sign(fault)),
    }
}

/// Signs the message as is asked, unless that changes what the accepted signature covers.
fn sign_by(
    alloc: Global,
    context: &Context<'_, '_>,
    spec: &SignSpec,
    accepted: &AcceptedLabel,
) -> Result<Forwarded, Memory>
    requires valid { IsValidSpec spec.now }
    requires whole { HasWholeMessage (context_of context.now) }
    requires signature { HasSignatureOf accepted.now (context_of context.now).message }
    ensures { IfOk result (SaysSigned (context_of context.now) accepted.now.params spec.now) }
{
    let text = match sign_beside(alloc, context, spec) {
        Ok(text) => text,
        Err(fault) => return Ok(Forwarded::Held(held_fault(alloc, spec, fault)?)),
    };
    match first_self_cover(spec.label.bytes(), accepted.params.ids.as_slice()) {
        Some(_) => Ok(Forwarded::Held(HeldFault::Covered)),
        None => Ok(Forwarded::Signed(text)),
    }
}

/// Signs the message by the configuration, unless that changes what the accepted signature covers.
pub(crate) fn sign_accepted(
    alloc: Global,
    conf: &Conf,
    now: u64,
    context: &Context<'_, '_>,
    accepted: &AcceptedLabel,
) -> Result<Forwarded, Memory>
    requires table { IsSome (meaning conf.now).sign }
    requires now { now ≤ MAX_MOMENT }
    requires whole { HasWholeMessage (context_of context.now) }
    requires signature { HasSignatureOf accepted.now (context_of context.now).message }
    ensures { IfOk result
        (SaysForwarded (meaning conf.now) now (context_of context.now) accepted.now.params) }
{
    let of_request = is_request(context.message.start());
    let spec = spec_of(alloc, conf, of_request, now, None)?;
    sign_by(alloc, context, &spec, accepted)
}
