//! The components that PARAMS cover.

ghost use Rattle.std.specs.Prelude.{IsTrue, IfOk, IfErr};
ghost use Rattle.component_ids.specs.SignatureParams.{are_sig_params_in_range};
ghost use Rattle.commands.specs.Covered.{ReadsParams};
ghost use Rattle.commands.specs.Base.{AreParamsRefused};
ghost use Rattle.refusals.specs.declared.refusal.Refusal.TheVariants.{Command};
ghost use Rattle.intake.specs.Stops.{IfRefused, IsRefusalFor};

use component_ids::{SigParams, read_params};
use intake::Stop;
use sfv_read::read_inner;
use std::alloc::Global;

/// Reads PARAMS as signature parameters.
pub fn read_signature_params(alloc: Global, params: &[u8]) -> Result<SigParams, Stop>
    ensures ok { IfOk result (λ sig. ReadsParams params.now sig) }
    ensures in_range { IfOk result (λ sig. IsTrue (are_sig_params_in_range sig)) }
    ensures refused { IfErr result (λ stop.
        IfRefused stop (IsRefusalFor (AreParamsRefused params.now) Command)) }
{
    let list = read_inner(alloc, params)?;
    let read = read_params(alloc, &list);
    drop(list);
    Ok(read?)
}
