//! The members of a Dictionary of digests.

ghost use Rattle.std.specs.Prelude.{◌≡◌, IsTrue, IfOk, IfErr};
ghost use Rattle.std.specs.List.{list_all, list_any};
ghost use Rattle.msg_body.specs.Views.{message_of, message_content};
ghost use Rattle.content_digest.specs.Digests.{is_known, is_sound, agrees};
ghost use Rattle.content_digest.specs.tools.Judged.{FailsByMember};

use crate::algorithm::Algorithm;
use crate::digest::digest_of;
use crate::fault::DigestFault;
use msg_body::MessageView;
use sfv_text::{Member, Pair};
use std::alloc::Global;

// Whether its key is that of a known algorithm.
fn is_known(member: &Pair<Member>) -> bool
    ensures { result ≡ is_known member.now }
{
    Algorithm::of_key(member.key.bytes()).is_some()
}

// Whether it is a Byte Sequence where its algorithm is known.
fn is_sound(member: &Pair<Member>) -> bool
    ensures { result ≡ is_sound member.now }
{
    !is_known(member) || member.value.byte_sequence().is_some()
}

/// Whether some member is of a known algorithm.
pub(crate) fn has_known(members: &[Pair<Member>]) -> bool
    ensures { result ≡ list_any is_known members.now }
{
    members.iter().any(|member| is_known(member))
}

/// Whether each member of a known algorithm is a Byte Sequence.
pub(crate) fn are_sound(members: &[Pair<Member>]) -> bool
    ensures { result ≡ list_all is_sound members.now }
{
    members.iter().all(|member| is_sound(member))
}

/// Judges the digest of one member, where its algorithm is known.
pub(crate) fn check_member(
    alloc: Global,
    member: &Pair<Member>,
    view: &MessageView<'_>,
) -> Result<(), DigestFault>
    requires { IsTrue (is_sound member.now) }
    ensures ok { IfOk result
        (λ _. IsTrue (agrees (message_content (message_of view.now)) member.now)) }
    ensures fault { IfErr result
        (λ fault. FailsByMember (message_content (message_of view.now)) member.now fault) }
{
    let Some(algorithm) = Algorithm::of_key(member.key.bytes()) else {
        return Ok(());
    };
    let Some(kept) = member.value.byte_sequence() else {
        unreachable!()
    };
    let computed = digest_of(alloc, algorithm, view)?;
    if kept.bytes() == computed.bytes() {
        return Ok(());
    }
    Err(DigestFault::Mismatch {
        algorithm,
        kept: kept.copy(alloc)?,
        computed,
    })
}
