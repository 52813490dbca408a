//! Whether the digests of a message's field are those of its content.

ghost use Rattle.std.specs.Prelude.{◌≡◌, Option, Some, Ok, IfOk, IfSome};
ghost use Rattle.msg_body.specs.Views.{message_of};
ghost use Rattle.signatures.specs.declared.place.DigestReason.{DigestReason};
ghost use Rattle.signatures.specs.ContentDigests.{IsDigestAnswer, digest_reason, digest_text};
ghost use Rattle.signatures.specs.tools.Held.{held_context};

use crate::held::HeldContext;
use crate::place::DigestReason;
use content_digest::{DigestFault, check_digest};
use msg_body::{MessageView, joined_value};
use msg_head::Side;
use sfv_text::Memory;
use std::alloc::Global;

/// The reason for which the digests have a fault.
fn reason_of(fault: &DigestFault) -> Result<Option<DigestReason>, Memory>
    ensures { IfOk result (λ answer. (reason : DigestReason) × (answer ≡ Some reason)
        × (digest_reason fault.now ≡ Some reason)) }
{
    match fault {
        DigestFault::Memory => Err(Memory),
        DigestFault::Malformed => Ok(Some(DigestReason::Malformed)),
        DigestFault::NoneKnown => Ok(Some(DigestReason::NoneKnown)),
        DigestFault::Mismatch { algorithm, .. } => Ok(Some(DigestReason::Mismatch(*algorithm))),
    }
}

/// Why the digests of the field's value aren't those of the content; nothing where they are.
fn check_value(
    alloc: Global,
    value: &[u8],
    message: &MessageView<'_>,
) -> Result<Option<DigestReason>, Memory>
    requires { value.now ≡ digest_text (message_of message.now) }
    ensures { IfOk result (IsDigestAnswer (message_of message.now)) }
{
    match check_digest(alloc, value, message) {
        Ok(()) => Ok(None),
        Err(fault) => reason_of(&fault),
    }
}

/// Why the digests of the field aren't those of the content; nothing where they are.
fn read_digest(alloc: Global, message: &MessageView<'_>) -> Result<Option<DigestReason>, Memory>
    ensures { IfOk result (IsDigestAnswer (message_of message.now)) }
{
    let lines = message.lines_named(Side::Header, b"content-digest");
    let value = joined_value(alloc, lines)?;
    check_value(alloc, value.bytes(), message)
}

/// The same, where they were looked at before, or else they are looked at now.
pub(crate) fn digest_of(
    alloc: Global,
    held: &HeldContext<'_, '_>,
    read: Option<Option<DigestReason>>,
) -> Result<Option<DigestReason>, Memory>
    requires { IfSome read (IsDigestAnswer (held_context held.now).message) }
    ensures is { IfOk result (IsDigestAnswer (held_context held.now).message) }
    ensures again { (answer : Option DigestReason) → read ≡ Some answer → result ≡ Ok answer }
{
    match read {
        Some(answer) => Ok(answer),
        None => read_digest(alloc, held.message.view()),
    }
}
