//! What the policy asks of a signature: rules 17 to 26.

ghost use Rattle.std.specs.Prelude.{◌≡◌, ◌≤◌, ℕ, List, Some, length, option_copied};
ghost use Rattle.framing.specs.Framings.{is_request};
ghost use Rattle.settings.specs.ConfMeaning.{meaning};
ghost use Rattle.nonces.specs.declared.limits.TheConstants.{MAX_KEYID_BYTES};
ghost use Rattle.verdicts.specs.Choice.{policy_of};
ghost use Rattle.verdicts.specs.Parameters.{keyid_of};
ghost use Rattle.verdicts.specs.Policies.{required_ids};
ghost use Rattle.verdicts.specs.Verification.{IsAt, verification_by};
ghost use Rattle.signatures.specs.tools.Answered.{Explains};
ghost use Rattle.verdicts.specs.tools.Judged.{ExplainsPolicy, FailsByChoice};

use crate::choice::policy_of;
use crate::coverage::judge_coverage;
use crate::nonce::judge_nonce;
use crate::tag_param::judge_tag_param;
use crate::times::{judge_created, judge_expires};
use crate::verifier::Verifier;
use component_ids::{ComponentId, SigParams};
use framing::is_request;
use nonces::Steps;
use settings::{Conf, Policy};
use signatures::{Exchange, LabelFault, Place, Rule};
use std::alloc::Global;
use std::sync::ledger::Ledger;

/// The policy by which the signature parameters are judged: rule 23 fails where there is none.
fn chosen_policy<'c>(conf: &'c Conf, params: &SigParams) -> Result<&'c Policy, LabelFault>
    ensures { Explains (λ policy. policy_of (meaning conf.now) params.now ≡ Some policy.now)
        (FailsByChoice (policy_of (meaning conf.now) params.now)) result }
{
    match policy_of(conf, params) {
        Some(policy) => Ok(policy),
        None => Err(LabelFault::Rule(Rule::TagWrong, Place::None)),
    }
}

/// The components that a signature of the message has to cover.
fn required_of<'p>(exchange: &Exchange<'_, '_>, policy: &'p Policy) -> &'p [ComponentId]
    ensures { result.now
        ≡ required_ids policy.now (is_request exchange.now.context.message.head.start) }
{
    if is_request(exchange.message().start()) {
        policy.require_request.as_slice()
    } else {
        policy.require_response.as_slice()
    }
}

/// The verifier's policy for the signature, which accepts it: rules 17 to 26.
pub(crate) fn judge_policy<'v, L: Ledger>(
    alloc: Global,
    exchange: &Exchange<'_, '_>,
    verifier: &Verifier<'v>,
    params: &SigParams,
    keyid: &[u8],
    steps: &mut Steps<L>,
) -> Result<&'v Policy, LabelFault>
    requires keyid { keyid_of params.now ≡ Some keyid.now }
    requires short { length keyid.now ≤ MAX_KEYID_BYTES }
    requires now { IsAt verifier.now.moment (option_copied verifier.now.seen) }
    ensures explains { (label : List ℕ) → ExplainsPolicy
        (verification_by verifier.entry.now exchange.now.context label) params.now result }
    ensures steps { steps.old ≤ steps.new }
{
    let policy = chosen_policy(verifier.conf, params)?;
    let required = required_of(exchange, policy);
    judge_coverage(alloc, params.ids.as_slice(), required)?;
    judge_created(params, policy, verifier.moment)?;
    judge_expires(params, policy, verifier.moment)?;
    judge_tag_param(params, policy)?;
    judge_nonce(params, policy, keyid, verifier.seen, steps)?;
    Ok(policy)
}
