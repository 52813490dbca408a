//! Several policies, and which of them judges a signature.

ghost use Rattle.std.specs.Prelude.{◌≡◌, is_none, option_copied};
ghost use Rattle.std.specs.List.{find};
ghost use Rattle.settings.specs.Chosen.{policy_for, selects};

use crate::policy::Policy;
use sfv_text::Sequence;

/// Policies, in order.
pub type Policies = Sequence<Policy>;

/// Whether the policy is for signatures with this `tag`.
fn selects(policy: &Policy, tag: &[u8]) -> bool
    ensures { result ≡ selects tag.now policy.now }
{
    match &policy.selects {
        Some(own) => own.bytes() == tag,
        None => false,
    }
}

/// Whether the policy is for signatures that no other is for.
fn selects_others(policy: &Policy) -> bool
    ensures { result ≡ is_none policy.now.selects }
{
    policy.selects.is_none()
}

/// The first policy for signatures with this `tag`.
fn policy_of_tag<'p>(policies: &'p [Policy], tag: &[u8]) -> Option<&'p Policy>
    ensures { option_copied result ≡ find (selects tag.now) policies.now }
{
    policies.iter().find(|policy| selects(policy, tag))
}

/// The first policy for signatures that no other is for.
fn default_policy(policies: &[Policy]) -> Option<&Policy>
    ensures { option_copied result ≡ find (λ policy. is_none policy.selects) policies.now }
{
    policies.iter().find(|policy| selects_others(policy))
}

/// The policy for signatures with this `tag`, or with none: the one that selects it, or else the
/// one that selects no tag.
pub(crate) fn policy_for<'p>(policies: &'p [Policy], tag: Option<&[u8]>) -> Option<&'p Policy>
    ensures { option_copied result ≡ policy_for policies.now (option_copied tag.entry) }
{
    let Some(tag) = tag else {
        return default_policy(policies);
    };
    match policy_of_tag(policies, tag) {
        Some(policy) => Some(policy),
        None => default_policy(policies),
    }
}
