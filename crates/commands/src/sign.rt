//! The command `sign`: the message with a signature (RFC 9421 section 3.1), or with those that
//! another message wishes (section 5.1).

ghost use Rattle.std.specs.Prelude.{◌≤◌, [], ◌∷◌, option_map, length, IfOk, IfSome, IsSome, IsTrue};
ghost use Rattle.std.specs.List.{All, list_all};
ghost use Rattle.sfv_text.specs.Range.{is_string_byte};
ghost use Rattle.msg_body.specs.Views.{message_of};
ghost use Rattle.component_ids.specs.Identifiers.{is_id_in_range};
ghost use Rattle.component_values.specs.Context.{HasWholeMessage, context_of};
ghost use Rattle.conf.specs.ConfMeaning.{meaning};
ghost use Rattle.nonces.specs.declared.limits.TheConstants.{MAX_MOMENT};
ghost use Rattle.framing.specs.Framings.{is_request};
ghost use Rattle.signing.specs.Asked.{IsSpecOf};
ghost use Rattle.signing.specs.Specs.{IsValidSpec};
ghost use Rattle.commands.specs.Sign.{ReportsEach, ReportsSign, ReportsWished};
ghost use Rattle.commands.specs.Outcome.{IfOutcome, ReadsNothing};
ghost use Rattle.commands.specs.tools.Signed.{HasIndexIn, HasPlaceIn, SaysEachFault, SaysSignFault};

use crate::base::stop_for_fault;
use crate::outcome::Outcome;
use component_values::{Context, ValueFault};
use conf::Conf;
use framing::is_request;
use intake::Stop;
use msg_body::MessageView;
use negotiation::{EachFault, sign_each};
use refusals::{CommandRefusal, Refusal};
use sfv_text::Memory;
use signing::{SignFault, SignSpec, sign, spec_of, wanted};
use std::alloc::Global;

/// What stops a run over a message that isn't signed.
fn stop_for_sign_fault(alloc: Global, spec: &SignSpec, fault: SignFault) -> Stop
    requires in_range { IsTrue (list_all is_id_in_range spec.now.params.ids) }
    requires there { HasIndexIn (length spec.now.params.ids) fault }
    ensures { SaysSignFault spec.now.params.ids fault result }
{
    match fault {
        SignFault::Memory => Stop::Memory,
        SignFault::Lacks(index, lack) => {
            let fault = ValueFault::Lacks(index, lack);
            stop_for_fault(alloc, spec.params.ids.as_slice(), fault)
        }
        _ => Stop::Refused(Refusal::Command(CommandRefusal::Sign(fault))),
    }
}

/// The message of the context with the signature that is asked for.
fn sign_spec(alloc: Global, context: &Context<'_, '_>, spec: &SignSpec) -> Result<Outcome, Stop>
    requires valid { IsValidSpec spec.now }
    requires whole { HasWholeMessage (context_of context.now) }
    ensures report { IfOutcome result (ReportsEach (context_of context.now) (spec.now ∷ [])) }
    ensures reads_nothing { ReadsNothing result }
{
    match sign(alloc, context, spec) {
        Ok(text) => Ok(Outcome::Done(text)),
        Err(fault) => Err(stop_for_sign_fault(alloc, spec, fault)),
    }
}

/// What stops a run over a message, where one of these signatures isn't made.
pub(crate) fn stop_for_each_fault(alloc: Global, specs: &[SignSpec], fault: EachFault) -> Stop
    requires valid { All IsValidSpec specs.now }
    requires there { HasPlaceIn specs.now fault }
    ensures { SaysEachFault specs.now fault result }
{
    match fault {
        EachFault::Memory => Stop::Memory,
        EachFault::Sign(index, fault) => stop_for_sign_fault(alloc, &specs[index], fault),
    }
}

/// The message of the context with each of these signatures in order, each over the message that
/// the one before it gave.
fn sign_specs(alloc: Global, context: &Context<'_, '_>, specs: &[SignSpec]) -> Result<Outcome, Stop>
    requires valid { All IsValidSpec specs.now }
    requires whole { HasWholeMessage (context_of context.now) }
    ensures report { IfOutcome result (ReportsEach (context_of context.now) specs.now) }
    ensures reads_nothing { ReadsNothing result }
{
    match sign_each(alloc, context, specs) {
        Ok(text) => Ok(Outcome::Done(text)),
        Err(fault) => Err(stop_for_each_fault(alloc, specs, fault)),
    }
}

/// The signature that the configuration asks for.
fn asked_spec(
    alloc: Global,
    conf: &Conf,
    now: u64,
    nonce: Option<&str>,
    context: &Context<'_, '_>,
) -> Result<SignSpec, Memory>
    requires table { IsSome (meaning conf.now).sign }
    requires now { now ≤ MAX_MOMENT }
    requires nonce { IfSome nonce (λ text. IsTrue (list_all is_string_byte text.now)) }
    ensures is { IfOk result (IsSpecOf (meaning conf.now)
        (is_request (context_of context.now).message.head.start) now
        (option_map (λ word. word.now) nonce.entry)) }
    ensures valid { IfOk result IsValidSpec }
{
    let of_request = is_request(context.message.start());
    match nonce {
        None => spec_of(alloc, conf, of_request, now, None),
        Some(nonce) => spec_of(alloc, conf, of_request, now, Some(nonce.as_bytes())),
    }
}

/// The message of the context with the signature that the configuration asks for. The moment is in
/// seconds since the epoch.
pub fn sign_outcome(
    alloc: Global,
    conf: &Conf,
    now: u64,
    nonce: Option<&str>,
    context: &Context<'_, '_>,
) -> Result<Outcome, Stop>
    requires table { IsSome (meaning conf.now).sign }
    requires now { now ≤ MAX_MOMENT }
    requires nonce { IfSome nonce (λ text. IsTrue (list_all is_string_byte text.now)) }
    requires whole { HasWholeMessage (context_of context.now) }
    ensures report { IfOutcome result (ReportsSign (option_map (λ word. word.now) nonce.entry)
        now (meaning conf.now) (context_of context.now)) }
    ensures reads_nothing { ReadsNothing result }
{
    let spec = asked_spec(alloc, conf, now, nonce, context)?;
    sign_spec(alloc, context, &spec)
}

/// The message of the context with each signature that another message wishes, in order, each over
/// the message that the one before it gave. The moment is in seconds since the epoch.
pub fn wished_outcome(
    alloc: Global,
    conf: &Conf,
    now: u64,
    wishes: &MessageView<'_>,
    context: &Context<'_, '_>,
) -> Result<Outcome, Stop>
    requires table { IsSome (meaning conf.now).sign }
    requires now { now ≤ MAX_MOMENT }
    requires whole { HasWholeMessage (context_of context.now) }
    ensures report { IfOutcome result (ReportsWished now (meaning conf.now)
        (message_of wishes.now) (context_of context.now)) }
    ensures reads_nothing { ReadsNothing result }
{
    let specs = wanted(alloc, wishes, conf, now)?;
    sign_specs(alloc, context, specs.as_slice())
}
