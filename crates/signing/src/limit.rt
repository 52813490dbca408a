//! The limits of a message with further header lines.

ghost use Rattle.std.specs.Prelude.{◌≡◌, ◌+◌, ◌<◌, ◌^◌, List, length, IfOk, IsTrue};
ghost use Rattle.std.specs.List.{flat_map};
ghost use Rattle.msg_head.specs.Lines.{FieldLine, line_text};
ghost use Rattle.msg_body.specs.Messages.{Message};
ghost use Rattle.component_ids.specs.SignatureParams.{are_sig_params_in_range, sig_params_text};
ghost use Rattle.signing.specs.SignCauses.{any_tag, passed_limit};
ghost use Rattle.signing.specs.Written.{digest_lines, signed_message, with_lines};
ghost use Rattle.signing.specs.tools.Lines.{AreLines};
ghost use Rattle.signing.specs.tools.Parts.{ArePartsOf};

use crate::lines::{AddedLines, signature_lines_len};
use crate::parts::Parts;
use crate::spec::SignSpec;
use component_ids::print_params;
use msg_body::MAX_MESSAGE_BYTES;
use msg_head::{MAX_HEAD_BYTES, MAX_HEAD_LINES};
use sfv_text::Memory;
use std::alloc::Global;

/// The first limit that a message of these parts passes with further header lines, by how many
/// bytes they have and how many they are.
pub(crate) fn passed_limit(parts: Parts<'_>, bytes: u128, count: u128) -> Option<usize>
    requires small { bytes + count < 2 ^ 100 }
    ensures { (message : Message) (lines : List FieldLine) → ArePartsOf message parts.entry
        → bytes ≡ length (flat_map line_text lines) → count ≡ length lines
        → result ≡ passed_limit (with_lines message lines) }
{
    let before = parts.before.len() as u128 + bytes;
    if before + 2 > MAX_HEAD_BYTES as u128 {
        return Some(MAX_HEAD_BYTES);
    }
    if parts.lines as u128 + count > MAX_HEAD_LINES as u128 {
        return Some(MAX_HEAD_LINES);
    }
    if before + parts.after.len() as u128 > MAX_MESSAGE_BYTES as u128 {
        return Some(MAX_MESSAGE_BYTES);
    }
    None
}

/// The first limit that the signed message passes, whose signature parameters have this text.
pub(crate) fn limit_of_signed(
    spec: &SignSpec,
    parts: Parts<'_>,
    digest: &AddedLines,
    params: &[u8],
) -> Option<usize>
    requires { params.now ≡ sig_params_text spec.now.params }
    ensures { (message : Message) → ArePartsOf message parts.entry
        → AreLines digest.now (digest_lines message spec.now.digest)
        → result ≡ passed_limit (signed_message message spec.now any_tag) }
{
    let bytes = digest.text.bytes().len() as u128 + signature_lines_len(spec, params);
    passed_limit(parts, bytes, digest.count as u128 + 2)
}

/// The first limit that the signed message passes, where its signature parameters aren't printed.
pub(crate) fn limit_of_unprinted(
    alloc: Global,
    spec: &SignSpec,
    parts: Parts<'_>,
    digest: &AddedLines,
) -> Result<Option<usize>, Memory>
    requires { IsTrue (are_sig_params_in_range spec.now.params) }
    ensures { IfOk result (λ limit. (message : Message) → ArePartsOf message parts.entry
        → AreLines digest.now (digest_lines message spec.now.digest)
        → limit ≡ passed_limit (signed_message message spec.now any_tag)) }
{
    let params = print_params(alloc, &spec.params)?;
    Ok(limit_of_signed(spec, parts, digest, params.bytes()))
}
