//! Makes digests of content.

ghost use Rattle.std.specs.Prelude.{◌≡◌, IfOk, IsTrue};
ghost use Rattle.sfv_text.specs.Strict.{dict_text};
ghost use Rattle.sfv_text.specs.Range.{is_dict_in_range};
ghost use Rattle.msg_body.specs.Views.{message_of, message_content};
ghost use Rattle.content_digest.specs.Digests.{digest_dict, DigestHolds};

use crate::algorithm::Algorithm;
use crate::digest::digest_of;
use msg_body::MessageView;
use sfv_text::{BareItem, Dict, Item, Member, Memory, Params, Text, print_dict};
use std::alloc::Global;

// The Dictionary that has the content's digest by the algorithm alone.
fn digest_dict(alloc: Global, algorithm: Algorithm, view: &MessageView<'_>) -> Result<Dict, Memory>
    ensures is { IfOk result
        (λ dict. dict ≡ digest_dict algorithm (message_content (message_of view.now))) }
    ensures in_range { IfOk result (λ dict. IsTrue (is_dict_in_range dict)) }
{
    let digest = digest_of(alloc, algorithm, view)?;
    let key = Text::from_bytes(alloc, algorithm.key())?;
    let item = Item {
        bare: BareItem::Bytes(digest),
        params: Params::new(alloc),
    };
    let mut dict = Dict::new(alloc);
    dict.put(key, Member::Item(item))?;
    Ok(dict)
}

/// The value of a `Content-Digest` field that has the content's digest by the algorithm alone (RFC
/// 9530 section 2), strictly spelled (RFC 9651 section 4.1.2).
pub fn make_digest(
    alloc: Global,
    algorithm: Algorithm,
    view: &MessageView<'_>,
) -> Result<Text, Memory>
    ensures is { IfOk result
        (λ text. text ≡ dict_text (digest_dict algorithm (message_content (message_of view.now)))) }
    ensures holds { IfOk result (λ text. DigestHolds text (message_content (message_of view.now))) }
{
    let dict = digest_dict(alloc, algorithm, view)?;
    print_dict(alloc, &dict)
}
