//! The verdict on a label.

ghost use Rattle.std.specs.Prelude.{◌≡◌, ◌≤◌, ℕ, List, Some, IsTrue, IfOk, length, option_copied};
ghost use Rattle.signatures.specs.Exchanges.{StillKnows};
ghost use Rattle.settings.specs.ConfMeaning.{meaning};
ghost use Rattle.nonces.specs.declared.limits.TheConstants.{MAX_KEYID_BYTES};
ghost use Rattle.component_ids.specs.SignatureParams.{are_sig_params_in_range};
ghost use Rattle.signatures.specs.Signatures.{HasSignature};
ghost use Rattle.signatures.specs.tools.Answered.{Explains};
ghost use Rattle.signatures.specs.Rules.{IsFirstFailure};
ghost use Rattle.verdicts.specs.KnownTags.{KnowsTag};
ghost use Rattle.verdicts.specs.Parameters.{keyid_of};
ghost use Rattle.verdicts.specs.Rules.{Fails, key_in};
ghost use Rattle.verdicts.specs.Verdicts.{IsVerdict, is_verdict_in_range};
ghost use Rattle.verdicts.specs.Verification.{Verification as Verified};
ghost use Rattle.verdicts.specs.Verification.{IsAt, verification_by, verification_of};
ghost use Rattle.verdicts.specs.tools.Judged.{AcceptsContent, ExplainsJudged, FailsByKeyid, FailsByKey, HasKey};

use crate::algorithm::judge_algorithm;
use crate::digest::judge_digest;
use crate::known_tag::SignedLabel;
use crate::mac::judge_mac;
use crate::nonce::judge_room;
use crate::outcome::Verdict;
use crate::policy::judge_policy;
use crate::verifier::Verifier;
use component_ids::SigParams;
use component_values::Context;
use hmac_sha256::HmacKey;
use nonces::{NonceBook, Steps};
use settings::{Conf, Policy};
use sfv_text::{Memory, Text};
use signatures::{Exchange, LabelFault, Place, Rule};
use std::alloc::Global;
use std::sync::ledger::Ledger;

/// The `keyid`: rule 15.
fn keyid_of(params: &SigParams) -> Result<&[u8], LabelFault>
    ensures { Explains (λ keyid. keyid_of params.now ≡ Some keyid.now) (FailsByKeyid params.now)
        result }
{
    match params.params.string(b"keyid") {
        Some(keyid) => Ok(keyid.bytes()),
        None => Err(LabelFault::Rule(Rule::KeyidAbsent, Place::None)),
    }
}

/// The key of the `keyid`: rule 16.
fn key_of<'a>(conf: &'a Conf, keyid: &[u8]) -> Result<&'a HmacKey, LabelFault>
    ensures explains { Explains (λ key. key_in (meaning conf.now) keyid.now ≡ Some key.now)
        (FailsByKey (key_in (meaning conf.now) keyid.now)) result }
    ensures short { IfOk result (λ _. length keyid.now ≤ MAX_KEYID_BYTES) }
{
    match conf.hmac_key(keyid) {
        Some(key) => Ok(key),
        None => Err(LabelFault::Rule(Rule::KeyUnknown, Place::None)),
    }
}

/// Whether the values of the components, the tag, the digest of the content and the nonces are
/// accepted: rules 27 to 34.
fn judge_content(
    alloc: Global,
    exchange: &mut Exchange<'_, '_>,
    verifier: &Verifier<'_>,
    signed: &SignedLabel<'_>,
    policy: &Policy,
    key: &HmacKey,
) -> Result<(), LabelFault>
    requires has { (keyid : List ℕ)
        × HasKey (verification_by verifier.now exchange.old.context signed.now.label.now)
        signed.now.read.now.params signed.now.read.now.tag keyid key.now policy.now }
    requires in_range { IsTrue (are_sig_params_in_range signed.now.read.now.params) }
    requires known { KnowsTag (meaning verifier.now.conf.now) exchange.old.context
        signed.now.label.now signed.now.is_right }
    requires now { IsAt verifier.now.moment (option_copied verifier.now.seen) }
    ensures explains { Explains
        (λ _. AcceptsContent (verification_by verifier.entry.now exchange.old.context
        signed.now.label.now) signed.now.read.now.params signed.now.read.now.tag key.now policy.now)
        (IsFirstFailure (Fails (verification_by verifier.entry.now exchange.old.context
        signed.now.label.now))) result }
    ensures exchange { exchange.new.context ≡ exchange.old.context }
    ensures still { StillKnows exchange.old exchange.new }
{
    judge_mac(alloc, exchange, signed, key)?;
    judge_digest(alloc, exchange, &signed.read.params, policy.digest)?;
    judge_room(&signed.read.params, policy, verifier.seen)
}

/// The `keyid` of the accepted signature, or the first of rules 13 to 34 that fails.
pub(crate) fn judge_signature<L: Ledger>(
    alloc: Global,
    exchange: &mut Exchange<'_, '_>,
    verifier: &Verifier<'_>,
    signed: &SignedLabel<'_>,
    steps: &mut Steps<L>,
) -> Result<Text, LabelFault>
    requires has { HasSignature exchange.old.context.message signed.now.label.now
        signed.now.read.now.params signed.now.read.now.tag }
    requires in_range { IsTrue (are_sig_params_in_range signed.now.read.now.params) }
    requires known { KnowsTag (meaning verifier.now.conf.now) exchange.old.context
        signed.now.label.now signed.now.is_right }
    requires now { IsAt verifier.now.moment (option_copied verifier.now.seen) }
    ensures explains { ExplainsJudged
        (verification_by verifier.entry.now exchange.old.context signed.now.label.now) result }
    ensures exchange { exchange.new.context ≡ exchange.old.context }
    ensures still { StillKnows exchange.old exchange.new }
    ensures steps { steps.old ≤ steps.new }
{
    let params = &signed.read.params;
    judge_algorithm(alloc, params)?;
    let keyid = keyid_of(params)?;
    let key = key_of(verifier.conf, keyid)?;
    let policy = judge_policy(alloc, exchange, verifier, params, keyid, steps)?;
    judge_content(alloc, exchange, verifier, signed, policy, key)?;
    Ok(Text::from_bytes(alloc, keyid)?)
}

/// The `keyid` of the accepted label, or the first rule that fails.
pub(crate) fn judge<L: Ledger>(
    alloc: Global,
    exchange: &mut Exchange<'_, '_>,
    verifier: &Verifier<'_>,
    label: &[u8],
    steps: &mut Steps<L>,
) -> Result<Text, LabelFault>
    requires { IsAt verifier.now.moment (option_copied verifier.now.seen) }
    ensures explains { ExplainsJudged
        (verification_by verifier.entry.now exchange.old.context label.now) result }
    ensures exchange { exchange.new.context ≡ exchange.old.context }
    ensures still { StillKnows exchange.old exchange.new }
    ensures steps { steps.old ≤ steps.new }
{
    let read = exchange.label(alloc, label)?;
    let signed = SignedLabel {
        label,
        read: &read,
        is_right: None,
    };
    judge_signature(alloc, exchange, verifier, &signed, steps)
}

/// The verdict that was judged.
pub(crate) fn verdict_of(judged: Result<Text, LabelFault>) -> Result<Verdict, Memory>
    ensures is { (v : Verified) → ExplainsJudged v judged → IfOk result (IsVerdict v) }
    ensures in_range { (v : Verified) → ExplainsJudged v judged
        → IfOk result (λ verdict. IsTrue (is_verdict_in_range verdict)) }
{
    match judged {
        Ok(keyid) => Ok(Verdict::Ok { keyid }),
        Err(LabelFault::Memory) => Err(Memory),
        Err(LabelFault::Rule(number, place)) => Ok(Verdict::Rule { number, place }),
    }
}

/// The verdict on the label at the moment `now`, in seconds since the epoch (RFC 9421 section
/// 3.2): it is accepted, or the first rule that fails.
///
/// The moment of the book is `now`. Without a book no nonce is remembered, so none was seen, and
/// room for them isn't asked for.
pub fn verdict<L: Ledger>(
    alloc: Global,
    context: &Context<'_, '_>,
    label: &[u8],
    conf: &Conf,
    now: u64,
    seen: Option<&NonceBook>,
    steps: &mut Steps<L>,
) -> Result<Verdict, Memory>
    requires { IsAt now (option_copied seen) }
    ensures is { IfOk result (λ verdict. IsVerdict (verification_of context.now label.now
        (meaning conf.now) now (option_copied seen.entry)) verdict) }
    ensures in_range { IfOk result (λ verdict. IsTrue (is_verdict_in_range verdict)) }
    ensures steps { steps.old ≤ steps.new }
{
    let verifier = Verifier {
        conf,
        moment: now,
        seen,
    };
    let mut exchange = Exchange::new(alloc, *context);
    verifier.verdict(alloc, &mut exchange, label, steps)
}
