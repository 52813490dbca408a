//! Compares digests with content.

ghost use Rattle.std.specs.Prelude.{◌≡◌, ◌≢◌, ℕ, List, IsTrue, IfOk, IfErr};
ghost use Rattle.std.specs.List.{list_all};
ghost use Rattle.byte_grammar.specs.Causes.{AnswersWhere};
ghost use Rattle.sfv_text.specs.declared.value.Member.{Member};
ghost use Rattle.sfv_text.specs.declared.pair.Pair.{Pair};
ghost use Rattle.sfv_read.specs.Reads.{ReadsDict};
ghost use Rattle.msg_body.specs.Views.{message_of, message_content};
ghost use Rattle.content_digest.specs.Digests.{DigestHolds, agrees, is_sound};
ghost use Rattle.content_digest.specs.Faults.{IsDigestFault};
ghost use Rattle.content_digest.specs.tools.Judged.{FailsByMembers, ExplainsDigest};

use crate::fault::DigestFault;
use crate::member::{are_sound, check_member, has_known};
use msg_body::MessageView;
use sfv_read::read_dict;
use sfv_text::{Dict, Member, Pair};
use std::alloc::Global;

// Judges the digests of the members in order.
fn check_members(
    alloc: Global,
    members: &[Pair<Member>],
    view: &MessageView<'_>,
) -> Result<(), DigestFault>
    requires { IsTrue (list_all is_sound members.now) }
    ensures ok { IfOk result
        (λ _. IsTrue (list_all (agrees (message_content (message_of view.now))) members.now)) }
    ensures fault { IfErr result
        (λ fault. FailsByMembers (message_content (message_of view.now)) members.now fault) }
{
    for member in members {
        check_member(alloc, member, view)?;
    }
    Ok(())
}

// The answer to the digests of a Dictionary, by its cause.
fn judge_members(
    alloc: Global,
    members: &[Pair<Member>],
    view: &MessageView<'_>,
) -> Result<(), DigestFault>
    ensures { (text : List ℕ) → ReadsDict text members.now
        → ExplainsDigest text (message_content (message_of view.now)) result }
{
    if !are_sound(members) {
        return Err(DigestFault::Malformed);
    }
    if !has_known(members) {
        return Err(DigestFault::NoneKnown);
    }
    check_members(alloc, members, view)
}

// The answer to the digests of a text, by its cause.
fn judge(alloc: Global, text: &[u8], view: &MessageView<'_>) -> Result<(), DigestFault>
    ensures { ExplainsDigest text.now (message_content (message_of view.now)) result }
{
    let dict = read_dict(alloc, text)?;
    judge_members(alloc, dict.as_slice(), view)
}

/// Compares the digests of a `Content-Digest` field that was read with the content, as
/// [`check_digest`] does those of its text.
pub fn check_dict(alloc: Global, dict: &Dict, view: &MessageView<'_>) -> Result<(), DigestFault>
    ensures ok { IfOk result (λ _. (text : List ℕ) → ReadsDict text dict.now
        → DigestHolds text (message_content (message_of view.now))) }
    ensures there { (text : List ℕ) → ReadsDict text dict.now
        → DigestHolds text (message_content (message_of view.now))
        → IfErr result (λ fault. fault ≡ DigestFault.Memory) }

    // The first fault whose cause holds is answered, and no other.
    ensures fault { (text : List ℕ) (fault : DigestFault) → ReadsDict text dict.now
        → fault ≢ DigestFault.Memory → AnswersWhere DigestFault.Memory result fault
        (IsDigestFault text (message_content (message_of view.now)) fault) }
{
    judge_members(alloc, dict.as_slice(), view)
}

/// Compares the digests of a `Content-Digest` field with the content (RFC 9530 section 2). The
/// text is the field's combined value.
///
/// Members of other algorithms are ignored, and so are the parameters of members. Of several
/// faults the first in the order of [`DigestFault`] is answered.
pub fn check_digest(alloc: Global, text: &[u8], view: &MessageView<'_>) -> Result<(), DigestFault>
    ensures ok { IfOk result (λ _. DigestHolds text.now (message_content (message_of view.now))) }
    ensures there { DigestHolds text.now (message_content (message_of view.now))
        → IfErr result (λ fault. fault ≡ DigestFault.Memory) }

    // The first fault whose cause holds is answered, and no other.
    ensures fault { (fault : DigestFault) → fault ≢ DigestFault.Memory
        → AnswersWhere DigestFault.Memory result fault
        (IsDigestFault text.now (message_content (message_of view.now)) fault) }
{
    judge(alloc, text, view)
}
