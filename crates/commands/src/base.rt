//! The command `base`: the signature base of a message (RFC 9421 section 2.5).

ghost use Rattle.std.specs.Prelude.{length, IsTrue};
ghost use Rattle.std.specs.List.{list_all};
ghost use Rattle.component_ids.specs.Identifiers.{is_id_in_range};
ghost use Rattle.component_ids.specs.SignatureParams.{are_sig_params_in_range};
ghost use Rattle.component_values.specs.Faults.{HasIndexBelow};
ghost use Rattle.component_values.specs.Context.{context_of};
ghost use Rattle.commands.specs.Base.{ReportsBase, ReportsValues};
ghost use Rattle.commands.specs.tools.Prepared.{SaysFault};
ghost use Rattle.commands.specs.Outcome.{IfOutcome, ReadsNothing};

use crate::covered::read_signature_params;
use crate::outcome::Outcome;
use component_ids::{ComponentId, SigParams, print_id};
use component_values::{Context, ValueFault, prepare};
use intake::Stop;
use refusals::{CommandRefusal, Refusal};
use signatures::base_bytes;
use std::alloc::Global;

/// What stops a run over components that aren't prepared.
pub(crate) fn stop_for_fault(alloc: Global, ids: &[ComponentId], fault: ValueFault) -> Stop
    requires in_range { IsTrue (list_all is_id_in_range ids.now) }
    requires there { HasIndexBelow (length ids.now) fault }
    ensures { SaysFault ids.now fault result }
{
    match fault {
        ValueFault::Memory => Stop::Memory,
        ValueFault::Lacks(index, lack) => match print_id(alloc, &ids[index]) {
            Ok(id) => Stop::Refused(Refusal::Command(CommandRefusal::Lacks(lack, id))),
            Err(_memory) => Stop::Memory,
        },
    }
}

/// The signature base over these components.
fn base_of(alloc: Global, sig: &SigParams, context: &Context<'_, '_>) -> Result<Outcome, Stop>
    requires { IsTrue (are_sig_params_in_range sig.now) }
    ensures report { IfOutcome result (ReportsValues (context_of context.now) sig.now) }
    ensures reads_nothing { ReadsNothing result }
{
    match prepare(alloc, context, sig) {
        Ok(prepared) => {
            let base = base_bytes(alloc, &prepared);
            drop(prepared);
            Ok(Outcome::Done(base?))
        }
        Err(fault) => Err(stop_for_fault(alloc, sig.ids.as_slice(), fault)),
    }
}

/// The signature base of the context's message over the components that PARAMS cover. They are an
/// Inner List, as a member of a `Signature-Input` field is (RFC 9421 section 4.1). Where no related
/// request is known, a component of one (section 2.4) lacks its value.
pub fn base_outcome(
    alloc: Global,
    params: &[u8],
    context: &Context<'_, '_>,
) -> Result<Outcome, Stop>
    ensures report { IfOutcome result (ReportsBase params.now (context_of context.now)) }
    ensures reads_nothing { ReadsNothing result }
{
    let sig = read_signature_params(alloc, params)?;
    base_of(alloc, &sig, context)
}
