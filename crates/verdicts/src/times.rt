//! When a signature is taken.

ghost use Rattle.std.specs.Prelude.{◌≡◌, ◌≤◌, ◌+◌, pos, ◌+ℤ◌, ◌≤ℤ◌, ◌<ℤ◌, IsTrue, IsFalse, IsSomeAnd};
ghost use Rattle.nonces.specs.declared.limits.TheConstants.{MAX_MOMENT};
ghost use Rattle.settings.specs.declared.limits.TheConstants.{MAX_AGE, MAX_SKEW};
ghost use Rattle.signatures.specs.tools.Answered.{Explains};
ghost use Rattle.verdicts.specs.Parameters.{created_of, expires_of};
ghost use Rattle.verdicts.specs.Policies.{IsFresh};
ghost use Rattle.verdicts.specs.tools.Judged.{FailsByCreated, FailsByExpires, PassesExpires};

use component_ids::SigParams;
use settings::Policy;
use signatures::{LabelFault, Place, Rule};

/// Whether it was created later than now, by more seconds than the skew.
fn is_ahead(created: i64, now: u64, skew: u64) -> bool
    ensures yes { IsTrue result → pos (now + skew) <ℤ created }
    ensures no { IsFalse result → created ≤ℤ pos (now + skew) }
{
    created as i128 > now as i128 + skew as i128
}

/// Whether it was created more seconds ago than the greatest age.
fn is_too_old(created: i64, now: u64, max_age: u64) -> bool
    ensures yes { IsTrue result → (created +ℤ pos max_age) <ℤ pos now }
    ensures no { IsFalse result → pos now ≤ℤ (created +ℤ pos max_age) }
{
    now as i128 > created as i128 + max_age as i128
}

/// Whether it expired before now.
fn is_expired(expires: i64, now: u64) -> bool
    ensures yes { IsTrue result → expires <ℤ pos now }
    ensures no { IsFalse result → pos now ≤ℤ expires }
{
    now as i128 > expires as i128
}

/// Whether the signature was created, and not too long ago (RFC 9421 section 2.3): rules 18 to 20.
pub(crate) fn judge_created(params: &SigParams, policy: &Policy, now: u64) -> Result<(), LabelFault>
    ensures { Explains (λ _. IsSomeAnd (created_of params.now) (IsFresh policy.now now))
        (FailsByCreated policy.now now (created_of params.now)) result }
{
    let Some(created) = params.params.integer(b"created") else {
        return Err(LabelFault::Rule(Rule::CreatedAbsent, Place::None));
    };
    if is_ahead(created, now, policy.skew) {
        return Err(LabelFault::Rule(Rule::CreatedAhead, Place::None));
    }
    if is_too_old(created, now, policy.max_age) {
        return Err(LabelFault::Rule(Rule::TooOld, Place::None));
    }
    Ok(())
}

/// Whether the signature isn't expired (RFC 9421 section 2.3): rules 21 and 22.
pub(crate) fn judge_expires(params: &SigParams, policy: &Policy, now: u64) -> Result<(), LabelFault>
    ensures { Explains (λ _. PassesExpires policy.now now (expires_of params.now))
        (FailsByExpires policy.now now (expires_of params.now)) result }
{
    let Some(expires) = params.params.integer(b"expires") else {
        if policy.expires {
            return Err(LabelFault::Rule(Rule::ExpiresAbsent, Place::None));
        }
        return Ok(());
    };
    if is_expired(expires, now) {
        return Err(LabelFault::Rule(Rule::Expired, Place::None));
    }
    Ok(())
}

/// The last moment at which a signature that was created then is accepted, as far as its age goes.
pub fn last_moment(created: i64, max_age: u64) -> u64
    requires age { max_age ≤ MAX_AGE }
    requires begun { created ≤ℤ pos (MAX_MOMENT + MAX_SKEW) }
    requires recent { pos 0 ≤ℤ (created +ℤ pos max_age) }
    ensures { pos result ≡ created +ℤ pos max_age }
{
    (created + max_age as i64) as u64
}
