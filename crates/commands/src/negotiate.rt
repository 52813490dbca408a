//! The command `negotiate`: a response with the signatures and the digest that its request asks for
//! (RFC 9421 section 5, RFC 9530 section 4).

ghost use Rattle.std.specs.Prelude.{◌≡◌, ◌≢◌, ◌≤◌, IsSome};
ghost use Rattle.component_values.specs.Context.{HasWholeMessage, context_of};
ghost use Rattle.conf.specs.ConfMeaning.{meaning};
ghost use Rattle.negotiation.specs.NegotiateCauses.{IsNegotiateFault};
ghost use Rattle.negotiation.specs.declared.fault.NegotiateFault.{NegotiateFault};
ghost use Rattle.negotiation.specs.declared.fault.NegotiateFault.TheVariants.{Sign};
ghost use Rattle.nonces.specs.declared.limits.TheConstants.{MAX_MOMENT};
ghost use Rattle.refusals.specs.declared.refusal.Refusal.TheVariants.{Command};
ghost use Rattle.commands.specs.Negotiate.{IsNegotiateRefused, ReportsNegotiation};
ghost use Rattle.intake.specs.Stops.{IfRefused, IsRefusalFor};
ghost use Rattle.commands.specs.Outcome.{IfOutcome, ReadsNothing};

use crate::outcome::Outcome;
use crate::sign::stop_for_each_fault;
use component_values::Context;
use conf::Conf;
use intake::Stop;
use negotiation::{EachFault, NegotiateFault, negotiate};
use refusals::DigestRefusal;
use signing::{SignFault, WantFault, wanted};
use std::alloc::Global;

/// Out of memory, which is the one fault of wishes that were read without one.
fn only_memory(fault: WantFault) -> Stop
    requires { fault ≡ WantFault.Memory }
    ensures { result ≡ Stop.Memory }
{
    match fault {
        WantFault::Memory => Stop::Memory,
        _ => unreachable!(),
    }
}

/// What stops a run over a response, where the signature of the wish at the index isn't made. The
/// wishes are read again: a component that lacks a value is said by its identifier.
fn stop_for_wish(
    alloc: Global,
    conf: &Conf,
    now: u64,
    context: &Context<'_, '_>,
    index: usize,
    fault: SignFault,
) -> Stop
    requires table { IsSome (meaning conf.now).sign }
    requires now { now ≤ MAX_MOMENT }
    requires is { IsNegotiateFault (meaning conf.now) now (context_of context.now)
        (Sign index fault) }
    ensures { IfRefused result (IsRefusalFor
        (IsNegotiateRefused now (meaning conf.now) (context_of context.now)) Command) }
{
    let Some(request) = context.related else {
        unreachable!()
    };
    match wanted(alloc, request, conf, now) {
        Ok(specs) => { stop_for_each_fault(alloc, specs.as_slice(), EachFault::Sign(index, fault)) }
        Err(fault) => only_memory(fault),
    }
}

/// What stops a run over a response that isn't signed as its request asks.
fn stop_for_negotiate_fault(
    alloc: Global,
    conf: &Conf,
    now: u64,
    context: &Context<'_, '_>,
    fault: NegotiateFault,
) -> Stop
    requires table { IsSome (meaning conf.now).sign }
    requires now { now ≤ MAX_MOMENT }
    requires is { fault ≢ NegotiateFault.Memory
        → IsNegotiateFault (meaning conf.now) now (context_of context.now) fault }
    ensures { IfRefused result (IsRefusalFor
        (IsNegotiateRefused now (meaning conf.now) (context_of context.now)) Command) }
{
    match fault {
        NegotiateFault::Memory => Stop::Memory,
        NegotiateFault::WishMalformed => Stop::of_digest(DigestRefusal::Malformed),
        NegotiateFault::Unacceptable => Stop::of_digest(DigestRefusal::Unacceptable),
        NegotiateFault::DigestUnmet => Stop::of_digest(DigestRefusal::Unmet),
        NegotiateFault::Wanted(fault) => Stop::from(fault),
        NegotiateFault::Sign(index, fault) => {
            stop_for_wish(alloc, conf, now, context, index, fault)
        }
    }
}

/// The response of the context with each signature that its request wishes, and with the digest
/// that the request asks for. The moment is in seconds since the epoch.
pub fn negotiate_outcome(
    alloc: Global,
    conf: &Conf,
    now: u64,
    context: &Context<'_, '_>,
) -> Result<Outcome, Stop>
    requires table { IsSome (meaning conf.now).sign }
    requires now { now ≤ MAX_MOMENT }
    requires request { IsSome (context_of context.now).related }
    requires whole { HasWholeMessage (context_of context.now) }
    ensures report { IfOutcome result
        (ReportsNegotiation now (meaning conf.now) (context_of context.now)) }
    ensures reads_nothing { ReadsNothing result }
{
    match negotiate(alloc, context, conf, now) {
        Ok(text) => Ok(Outcome::Done(text)),
        Err(fault) => Err(stop_for_negotiate_fault(alloc, conf, now, context, fault)),
    }
}
