//! The nonce of a signature: rules 24 to 26, and 34.

ghost use Rattle.std.specs.Prelude.{◌≡◌, ◌≤◌, ◌↔◌, ℕ, length, IsTrue, IsFalse, option_copied};
ghost use Rattle.settings.specs.declared.policy.NonceUse.{NonceUse};
ghost use Rattle.nonces.specs.declared.limits.TheConstants.{MAX_KEYID_BYTES};
ghost use Rattle.verdicts.specs.Parameters.{nonce_of};
ghost use Rattle.verdicts.specs.Policies.{asks_new, is_replay, is_full_at, HasRoom, LacksRoom};
ghost use Rattle.verdicts.specs.Verification.{IsAt};
ghost use Rattle.signatures.specs.tools.Answered.{Explains};
ghost use Rattle.verdicts.specs.tools.Judged.{FailsByNonce, PassesNonce, IsAbsentNonce, FailsByRoom, moment_of};

use component_ids::SigParams;
use nonces::{MAX_NONCE_BYTES, NonceBook, Steps};
use settings::{NonceUse, Policy};
use signatures::{LabelFault, Place, Rule};
use std::sync::ledger::Ledger;

/// Whether a signature with this `keyid` and this nonce was accepted, and would still be taken.
fn is_replay<L: Ledger>(
    seen: Option<&NonceBook>,
    keyid: &[u8],
    nonce: &[u8],
    steps: &mut Steps<L>,
) -> bool
    requires { length keyid.now ≤ MAX_KEYID_BYTES }
    ensures found { result ≡ is_replay (option_copied seen.entry)
        (moment_of (option_copied seen.entry)) keyid.now nonce.now }
    ensures steps { steps.old ≤ steps.new }
{
    match seen {
        Some(book) => book.find(keyid, nonce, steps),
        None => false,
    }
}

/// Whether a nonce that is there has to be new.
pub fn asks_new(nonce: NonceUse) -> bool
    ensures { result ≡ asks_new nonce }
{
    match nonce {
        NonceUse::Ignore => false,
        NonceUse::Check | NonceUse::Require => true,
    }
}

/// Where no nonce is there.
fn judge_absent(nonce: NonceUse) -> Result<(), LabelFault>
    ensures { Explains (λ _. ¬ (nonce ≡ NonceUse.Require)) (IsAbsentNonce nonce) result }
{
    match nonce {
        NonceUse::Ignore | NonceUse::Check => Ok(()),
        NonceUse::Require => Err(LabelFault::Rule(Rule::NonceAbsent, Place::None)),
    }
}

/// Whether the nonce is there where it has to be, and is new (RFC 9421 section 7.2.2): rules 24 to
/// 26.
pub(crate) fn judge_nonce<L: Ledger>(
    params: &SigParams,
    policy: &Policy,
    keyid: &[u8],
    seen: Option<&NonceBook>,
    steps: &mut Steps<L>,
) -> Result<(), LabelFault>
    requires { length keyid.now ≤ MAX_KEYID_BYTES }
    ensures explains { Explains
        (λ _. PassesNonce policy.now.nonce (λ nonce. is_replay (option_copied seen.entry)
        (moment_of (option_copied seen.entry)) keyid.now nonce) (nonce_of params.now))
        (FailsByNonce policy.now.nonce (λ nonce. is_replay (option_copied seen.entry)
        (moment_of (option_copied seen.entry)) keyid.now nonce) (nonce_of params.now)) result }
    ensures steps { steps.old ≤ steps.new }
{
    if !asks_new(policy.nonce) {
        return Ok(());
    }
    let Some(nonce) = params.params.string(b"nonce") else {
        return judge_absent(policy.nonce);
    };
    if is_replay(seen, keyid, nonce.bytes(), steps) {
        return Err(LabelFault::Rule(Rule::NonceRepeated, Place::None));
    }
    if nonce.bytes().len() > MAX_NONCE_BYTES {
        return Err(LabelFault::Rule(Rule::NonceLong, Place::None));
    }
    Ok(())
}

/// Whether the book holds as many entries as it can.
fn is_full(seen: Option<&NonceBook>) -> bool
    ensures { result
        ≡ is_full_at (moment_of (option_copied seen.entry)) (option_copied seen.entry) }
{
    match seen {
        Some(book) => {
            book.keeps_limits();
            book.is_full()
        }
        None => false,
    }
}

/// Whether the book has room for the nonce of the signature, where it has to be remembered (RFC
/// 9421 section 7.2.2). It has where no nonce is remembered.
fn has_room(params: &SigParams, policy: &Policy, seen: Option<&NonceBook>) -> bool
    ensures room { (now : ℕ) → IsAt now (option_copied seen.entry)
        → IsTrue result ↔ HasRoom now (option_copied seen.entry) policy.now params.now }
    ensures full { (now : ℕ) → IsAt now (option_copied seen.entry)
        → IsFalse result ↔ LacksRoom now (option_copied seen.entry) policy.now params.now }
{
    if !asks_new(policy.nonce) {
        return true;
    }
    params.params.string(b"nonce").is_none() || !is_full(seen)
}

/// Whether the nonce can be remembered: rule 34.
pub(crate) fn judge_room(
    params: &SigParams,
    policy: &Policy,
    seen: Option<&NonceBook>,
) -> Result<(), LabelFault>
    ensures { (now : ℕ) → IsAt now (option_copied seen.entry) → Explains
        (λ _. HasRoom now (option_copied seen.entry) policy.now params.now)
        (FailsByRoom now (option_copied seen.entry) policy.now params.now) result }
{
    if has_room(params, policy, seen) {
        Ok(())
    } else {
        Err(LabelFault::Rule(Rule::NoncesFull, Place::None))
    }
}
