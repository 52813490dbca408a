//! What is asked to be signed.

use component_ids::SigParams;
use content_digest::Algorithm;
use hmac_sha256::HmacKey;
use sfv_text::{Memory, Sequence, Text};
use std::alloc::Global;

/// What a signature is to be: its label, its parameters and its key.
#[derive(Drop)]
pub struct SignSpec {
    /// The label, a key of a Dictionary (RFC 9421 section 4).
    pub label: Text,
    /// The covered components and the parameters (RFC 9421 section 2.3).
    pub params: SigParams,
    /// The key of HMAC.
    pub key: HmacKey,
    /// The algorithm of the digest of the content that is added, where one is (RFC 9530 section 2).
    pub digest: Option<Algorithm>,
}

impl SignSpec {
    ghost use Rattle.std.specs.Prelude.{◌≡◌, IfOk};

    /// A signature of the label with these parameters, under the key.
    pub(crate) fn new(
        alloc: Global,
        label: &Text,
        params: SigParams,
        key: &HmacKey,
        digest: Option<Algorithm>,
    ) -> Result<SignSpec, Memory>
        ensures { IfOk result (λ spec. spec ≡ record {
          label = label.now;
          params = params;
          key = key.now;
          digest = digest;
        }) }
    {
        Ok(SignSpec {
            label: label.copy(alloc)?,
            params,
            key: key.copy(alloc)?,
            digest,
        })
    }
}

/// What is asked to be signed, in order.
pub type Specs = Sequence<SignSpec>;
