//! Whether the digests of a response are what its request asks for (RFC 9530 sections 2 and 4).

ghost use Rattle.std.specs.Prelude.{◌↔◌, IsTrue, IfOk};
ghost use Rattle.msg_body.specs.Views.{message_of};
ghost use Rattle.content_digest.specs.Digests.{digest_name};
ghost use Rattle.signatures.specs.Signatures.{HasDict};
ghost use Rattle.negotiation.specs.NegotiateCauses.{HasRightDigests};
ghost use Rattle.negotiation.specs.tools.Judged.{ExplainsDigests};

use crate::fault::NegotiateFault;
use content_digest::{Algorithm, DigestFault, check_dict};
use msg_body::MessageView;
use sfv_text::{Dict, Memory};
use signatures::{DictField, read_field};
use std::alloc::Global;

/// Whether the digests that the response's field has are those of its content.
fn are_right(alloc: Global, digests: &Dict, response: &MessageView<'_>) -> Result<bool, Memory>
    requires { HasDict (message_of response.now) digest_name digests.now }
    ensures { IfOk result (λ right. IsTrue right ↔ HasRightDigests (message_of response.now)) }
{
    match check_dict(alloc, digests, response) {
        Ok(()) => Ok(true),
        Err(DigestFault::Memory) => Err(Memory),
        Err(_) => Ok(false),
    }
}

/// Whether the response has no digests, or right ones with one by the algorithm that is asked for.
/// Where none is asked for, its digests aren't looked at.
pub(crate) fn judge_digests(
    alloc: Global,
    response: &MessageView<'_>,
    wished: Option<Algorithm>,
) -> Result<(), NegotiateFault>
    ensures { ExplainsDigests (message_of response.now) wished result }
{
    let Some(algorithm) = wished else {
        return Ok(());
    };
    let digests = match read_field(alloc, response, b"content-digest")? {
        DictField::Absent => return Ok(()),
        DictField::Malformed => return Err(NegotiateFault::DigestUnmet),
        DictField::Dict(digests) => digests,
    };
    if digests.find(algorithm.key()).is_none() {
        return Err(NegotiateFault::DigestUnmet);
    }
    if are_right(alloc, &digests, response)? {
        Ok(())
    } else {
        Err(NegotiateFault::DigestUnmet)
    }
}
