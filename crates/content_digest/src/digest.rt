//! The digest of content.

ghost use Rattle.std.specs.Prelude.{◌≡◌, IfOk, IsTrue};
ghost use Rattle.std.specs.List.{list_all};
ghost use Rattle.sha2.specs.Sha256.{sha256};
ghost use Rattle.sha2.specs.Sha512.{sha512};
ghost use Rattle.sfv_text.specs.Range.{is_byte};
ghost use Rattle.msg_body.specs.Views.{message_of, message_content};
ghost use Rattle.content_digest.specs.Algorithms.{digest_by};

use crate::algorithm::Algorithm;
use msg_body::MessageView;
use sfv_text::{Memory, Text};
use sha2::{Digest, Sha256, Sha512};
use std::alloc::Global;

// The digest by SHA-256.
fn sha256_of(view: &MessageView<'_>) -> [u8; 32]
    ensures { result ≡ sha256 (message_content (message_of view.now)) }
{
    let mut hasher = Sha256::new();
    for piece in view.content_pieces() {
        hasher.update(piece);
    }
    hasher.finalize()
}

// The digest by SHA-512.
fn sha512_of(view: &MessageView<'_>) -> [u8; 64]
    ensures { result ≡ sha512 (message_content (message_of view.now)) }
{
    let mut hasher = Sha512::new();
    for piece in view.content_pieces() {
        hasher.update(piece);
    }
    hasher.finalize()
}

// A text of these bytes.
fn text_of(alloc: Global, bytes: &[u8]) -> Result<Text, Memory>
    ensures is { IfOk result (λ text. text ≡ bytes.now) }
    ensures in_range { IfOk result (λ text. IsTrue (list_all is_byte text)) }
{
    Text::from_bytes(alloc, bytes)
}

/// The digest of the content by the algorithm.
pub(crate) fn digest_of(
    alloc: Global,
    algorithm: Algorithm,
    view: &MessageView<'_>,
) -> Result<Text, Memory>
    ensures is { IfOk result
        (λ digest. digest ≡ digest_by algorithm (message_content (message_of view.now))) }
    ensures in_range { IfOk result (λ digest. IsTrue (list_all is_byte digest)) }
{
    match algorithm {
        Algorithm::Sha256 => text_of(alloc, &sha256_of(view)),
        Algorithm::Sha512 => text_of(alloc, &sha512_of(view)),
    }
}
