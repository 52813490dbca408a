//! The signature base and the tag of a signature: rules 27 to 32.

ghost use Rattle.std.specs.Prelude.{◌≡◌, ◌<◌, ◌↔◌, ◌++◌, ℕ, List, IsTrue, length};
ghost use Rattle.component_ids.specs.SignatureParams.{are_sig_params_in_range};
ghost use Rattle.component_ids.specs.declared.params.SigParams.{SigParams};
ghost use Rattle.signatures.specs.SignatureBase.{signature_base};
ghost use Rattle.hmac_sha256.specs.Hmac.{hmac, key_block};
ghost use Rattle.hmac_sha256.specs.State.{HasAbsorbed};
ghost use Rattle.component_values.specs.Faults.{HasIndexBelow};
ghost use Rattle.signatures.specs.tools.Answered.{Explains};
ghost use Rattle.verdicts.specs.KnownTags.{IsKnownOf};
ghost use Rattle.verdicts.specs.tools.Judged.{ExplainsMac, FailsByTag, IsTagOf, SaysFault, rule_of_lack};

use crate::known_tag::SignedLabel;
use component_ids::ComponentId;
use component_values::{Lack, Prepared, ValueFault};
use hmac_sha256::{Hmac, HmacKey, same_tag};
use signatures::{Exchange, LabelFault, LabelRead, Place, Rule, feed_base};
use std::alloc::Global;

/// The rule of a component that lacks a value so.
fn rule_of_lack(lack: Lack) -> Rule
    ensures { result ≡ rule_of_lack lack }
{
    match lack {
        Lack::Absent => Rule::Absent,
        Lack::Ambiguous => Rule::Ambiguous,
        Lack::Underivable => Rule::Underivable,
        Lack::Unreadable => Rule::Unreadable,
        Lack::NotAscii => Rule::NotAscii,
    }
}

/// The fault of a label whose components aren't prepared.
fn fault_of_lack(alloc: Global, ids: &[ComponentId], fault: ValueFault) -> LabelFault
    requires { HasIndexBelow (length ids.now) fault }
    ensures { SaysFault ids.now fault result }
{
    match fault {
        ValueFault::Memory => LabelFault::Memory,
        ValueFault::Lacks(index, lack) => match ids[index].copy(alloc) {
            Ok(id) => LabelFault::Rule(rule_of_lack(lack), Place::Identifier(id)),
            Err(_memory) => LabelFault::Memory,
        },
    }
}

/// Whether the tag is what the HMAC comes to over the text that it was fed, all its bytes (RFC 9421
/// section 3.3.3).
fn has_tag(mac: Hmac, tag: &[u8]) -> bool
    ensures { (key text : List ℕ) → HasAbsorbed mac (key_block key ++ text)
        → IsTrue result ↔ (tag.now ≡ hmac key text) }
{
    same_tag(tag, &mac.finish())
}

/// Whether the tag is the HMAC of the signature base under the key, all its bytes (RFC 9421 section
/// 3.3.3).
pub fn tag_matches(prepared: &Prepared<'_, '_>, key: &[u8], tag: &[u8]) -> bool
    ensures { IsTrue result ↔ (tag.now
        ≡ hmac key.now (signature_base prepared.now.params prepared.now.values)) }
{
    let mut mac = Hmac::new(key);
    feed_base(prepared, &mut mac);
    has_tag(mac, tag)
}

/// Whether the tag is right, where the HMAC was fed the signature base: rule 32.
fn judge_tag(mac: Hmac, tag: &[u8]) -> Result<(), LabelFault>
    ensures { (params : SigParams) (values : List (List ℕ)) (key : List ℕ)
        → HasAbsorbed mac (key_block key ++ signature_base params values)
        → Explains (λ _. IsTagOf params values key tag.now)
        (FailsByTag params values key tag.now) result }
{
    if has_tag(mac, tag) {
        Ok(())
    } else {
        Err(LabelFault::Rule(Rule::MacMismatch, Place::None))
    }
}

/// Whether each component has its value, and the tag is right: rules 27 to 32.
fn judge_base(
    alloc: Global,
    exchange: &mut Exchange<'_, '_>,
    read: &LabelRead,
    key: &HmacKey,
) -> Result<(), LabelFault>
    requires { IsTrue (are_sig_params_in_range read.now.params) }
    ensures explains { ExplainsMac exchange.old.context read.now.params read.now.tag key.now
        result }
    ensures exchange { exchange.new ≡ exchange.old }
{
    let mut mac = key.hmac();
    match exchange.feed_base(alloc, &read.params, &mut mac) {
        Ok(()) => judge_tag(mac, read.tag.bytes()),
        Err(fault) => Err(fault_of_lack(alloc, read.params.ids.as_slice(), fault)),
    }
}

/// The same of a signature of whose tag it may be known.
pub(crate) fn judge_mac(
    alloc: Global,
    exchange: &mut Exchange<'_, '_>,
    signed: &SignedLabel<'_>,
    key: &HmacKey,
) -> Result<(), LabelFault>
    requires in_range { IsTrue (are_sig_params_in_range signed.now.read.now.params) }
    requires known { IsKnownOf exchange.old.context signed.now.read.now.params
        signed.now.read.now.tag key.now signed.now.is_right }
    ensures explains { ExplainsMac exchange.old.context signed.now.read.now.params
        signed.now.read.now.tag key.now result }
    ensures exchange { exchange.new ≡ exchange.old }
{
    match signed.is_right {
        Some(true) => Ok(()),
        Some(false) => Err(LabelFault::Rule(Rule::MacMismatch, Place::None)),
        None => judge_base(alloc, exchange, signed.read, key),
    }
}
