//! Whether the signature covers the digest of the content: rule 33.

ghost use Rattle.std.specs.Prelude.{◌≡◌, IsTrue};
ghost use Rattle.std.specs.List.{list_all};
ghost use Rattle.content_digest.specs.Digests.{DigestHolds};
ghost use Rattle.msg_body.specs.Views.{message_of, message_content};
ghost use Rattle.signatures.specs.ContentDigests.{digest_text};
ghost use Rattle.signatures.specs.Exchanges.{StillKnows};
ghost use Rattle.verdicts.specs.ContentDigest.{asks_digest, keeps_whole, is_whole_digest, covers_digest, HasDigest};
ghost use Rattle.signatures.specs.tools.Answered.{Explains};
ghost use Rattle.verdicts.specs.tools.Judged.{FailsByField, FailsByDigest};

use component_ids::{ComponentId, SigParams};
use msg_body::MessageView;
use settings::DigestUse;
use sfv_text::{BareItem, Pair, Params};
use signatures::{DigestReason, Exchange, LabelFault, Place, Rule};
use std::alloc::Global;

/// Whether the digest of the content has to be covered.
fn asks_digest(digest: DigestUse, message: &MessageView<'_>) -> bool
    ensures { result ≡ asks_digest digest (message_content (message_of message.now)) }
{
    match digest {
        DigestUse::Ignore => false,
        DigestUse::Content => message.content_len() > 0,
        DigestUse::Always => true,
    }
}

/// Whether a component with the parameter is still the whole header field.
fn keeps_whole(param: &Pair<BareItem>) -> bool
    ensures { result ≡ keeps_whole param.now }
{
    matches!(param.key.bytes(), b"sf" | b"bs")
}

fn keep_whole(params: &Params) -> bool
    ensures { result ≡ list_all keeps_whole params.now }
{
    params.iter().all(|param| keeps_whole(param))
}

fn is_whole_digest(id: &ComponentId) -> bool
    ensures { result ≡ is_whole_digest id.now }
{
    id.name.bytes() == b"content-digest".as_slice() && keep_whole(&id.params)
}

fn covers_digest(ids: &[ComponentId]) -> bool
    ensures { result ≡ covers_digest ids.now }
{
    ids.iter().any(|id| is_whole_digest(id))
}

/// Whether the digests of the field are those of the content.
fn judge_field(alloc: Global, exchange: &mut Exchange<'_, '_>) -> Result<(), LabelFault>
    ensures explains { Explains (λ _. DigestHolds (digest_text exchange.old.context.message)
        (message_content exchange.old.context.message))
        (FailsByField exchange.old.context.message) result }
    ensures exchange { exchange.new.context ≡ exchange.old.context }
    ensures still { StillKnows exchange.old exchange.new }
{
    match exchange.digest(alloc)? {
        None => Ok(()),
        Some(reason) => Err(LabelFault::Rule(Rule::Digest, Place::Digest(reason))),
    }
}

/// Whether the digest of the content is covered, where it has to be, and is right: rule 33.
pub(crate) fn judge_digest(
    alloc: Global,
    exchange: &mut Exchange<'_, '_>,
    params: &SigParams,
    digest: DigestUse,
) -> Result<(), LabelFault>
    ensures explains { Explains (λ _.
        IsTrue (asks_digest digest (message_content exchange.old.context.message))
        → HasDigest exchange.old.context.message params.now.ids)
        (FailsByDigest (asks_digest digest (message_content exchange.old.context.message))
        exchange.old.context.message params.now.ids) result }
    ensures exchange { exchange.new.context ≡ exchange.old.context }
    ensures still { StillKnows exchange.old exchange.new }
{
    if !asks_digest(digest, exchange.message()) {
        return Ok(());
    }
    if !covers_digest(params.ids.as_slice()) {
        let place = Place::Digest(DigestReason::Uncovered);
        return Err(LabelFault::Rule(Rule::Digest, place));
    }
    judge_field(alloc, exchange)
}
