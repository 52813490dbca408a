//! The tag of a signature.

ghost use Rattle.std.specs.Prelude.{◌≡◌};
ghost use Rattle.hmac_sha256.specs.Hmac.{hmac};
ghost use Rattle.signatures.specs.SignatureBase.{signature_base};
ghost use Rattle.signing.specs.tools.Judged.{lack_fault_of};

use crate::fault::SignFault;
use component_values::{Prepared, ValueFault};
use hmac_sha256::HmacKey;
use signatures::feed_base;

/// How many bytes a tag has (RFC 9421 section 3.3.3).
pub const TAG_BYTES: usize = 32;

/// The fault of a message whose components aren't prepared.
pub(crate) fn lack_fault_of(fault: ValueFault) -> SignFault
    ensures { result ≡ lack_fault_of fault }
{
    match fault {
        ValueFault::Memory => SignFault::Memory,
        ValueFault::Lacks(index, lack) => SignFault::Lacks(index, lack),
    }
}

/// The HMAC of the signature base of prepared components (RFC 9421 section 3.3.3).
pub(crate) fn tag_of(prepared: &Prepared<'_, '_>, key: &HmacKey) -> [u8; TAG_BYTES]
    ensures { result ≡ hmac key.now
        (signature_base prepared.now.params prepared.now.values) }
{
    let mut mac = key.hmac();
    feed_base(prepared, &mut mac);
    mac.finish()
}
