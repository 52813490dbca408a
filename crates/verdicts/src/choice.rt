//! Which policy judges a signature, and how long nonces are remembered by the policies.

ghost use Rattle.std.specs.Prelude.{◌≡◌, ◌≤◌, None, [], ◌∷◌, IfNone, IfSome, option_copied};
ghost use Rattle.settings.specs.ConfMeaning.{meaning};
ghost use Rattle.settings.specs.ValidSections.{IsValidPolicy};
ghost use Rattle.settings.specs.declared.policy.Policy.{Policy};
ghost use Rattle.nonces.specs.declared.limits.TheConstants.{MAX_WINDOW};
ghost use Rattle.verdicts.specs.Choice.{policy_of, window_of};

use component_ids::SigParams;
use settings::{Conf, Policy};

/// The one policy of which there is no other, where it selects no tag.
fn sole_default(policies: &[Policy]) -> Option<&Policy>
    ensures some { IfSome result
        (λ policy. (policies.now ≡ policy.now ∷ []) × (policy.now.selects ≡ None)) }
    ensures none { IfNone result
        ((policy : Policy) → policies.now ≡ policy ∷ [] → ¬ (policy.selects ≡ None)) }
{
    match policies {
        [policy] if policy.selects.is_none() => Some(policy),
        _ => None,
    }
}

/// The policy by which the signature parameters are judged, that of their `tag`; none where there
/// is no such policy. It takes no memory.
pub fn policy_of<'c>(conf: &'c Conf, params: &SigParams) -> Option<&'c Policy>
    ensures is { option_copied result ≡ policy_of (meaning conf.now) params.now }
    ensures valid { IfSome result (λ policy. IsValidPolicy policy.now) }
{
    // then the signature isn't asked for its tag
    if let Some(policy) = sole_default(conf.policies().as_slice()) {
        return Some(policy);
    }
    match params.params.string(b"tag") {
        Some(tag) => conf.policy_for(Some(tag.bytes())),
        None => conf.policy_for(None),
    }
}

/// How many seconds ahead a nonce is remembered at most, by the greatest window of the policies.
pub fn window_of(conf: &Conf) -> u64
    ensures is { result ≡ window_of (meaning conf.now) }
    ensures short { result ≤ MAX_WINDOW }
{
    let mut window = 0;
    for policy in conf.policies().as_slice() {
        let own = policy.max_age + 2 * policy.skew;
        if own > window {
            window = own;
        }
    }
    window
}
