//! How signatures are judged.

ghost use Rattle.std.specs.Prelude.{◌≡◌};
ghost use Rattle.settings.specs.Standard.{standard_policy};
ghost use Rattle.settings.specs.Words.{digest_use_of_word, nonce_use_of_word};

use crate::limits::{DEFAULT_MAX_AGE, DEFAULT_SKEW};
use component_ids::Ids;
use sfv_text::Text;
use std::alloc::Global;

/// How signatures are judged: the table `policy`, or one of the tables of `policies`.
#[derive(Drop)]
pub struct Policy {
    /// The value of the parameter `tag` of the signatures that it judges (RFC 9421 section 2.3);
    /// none where it judges those that no other policy does.
    pub selects: Option<Text>,
    /// How many seconds after its creation a signature is taken (RFC 9421 section 2.3).
    pub max_age: u64,
    /// How many seconds the clocks of the signer and of the verifier may be apart.
    pub skew: u64,
    /// The components that a signature of a request has to cover.
    pub require_request: Ids,
    /// The components that a signature of a response has to cover.
    pub require_response: Ids,
    /// Whether the parameter `expires` has to be there.
    pub expires: bool,
    /// What is asked of the parameter `nonce`.
    pub nonce: NonceUse,
    /// The value that the parameter `tag` has to have, where one is asked for.
    pub tag: Option<Text>,
    /// When a digest of the content is asked for.
    pub digest: DigestUse,
}

/// What is asked of the parameter `nonce` (RFC 9421 section 2.3).
#[derive(Clone, Copy, PartialEq, Eq)]
pub enum NonceUse {
    /// Nothing.
    Ignore,
    /// That it is new, where it is there.
    Check,
    /// That it is there, and new.
    Require,
}

/// When a digest of the content has to be covered, and to be that of the content (RFC 9530 section
/// 2).
#[derive(Clone, Copy, PartialEq, Eq)]
pub enum DigestUse {
    /// Never.
    Ignore,
    /// Where the content has at least one byte.
    Content,
    /// Always.
    Always,
}

impl Policy {
    /// The policy where nothing is said.
    pub fn standard(alloc: Global) -> Policy
        ensures { result ≡ standard_policy }
    {
        Policy {
            selects: None,
            max_age: DEFAULT_MAX_AGE,
            skew: DEFAULT_SKEW,
            require_request: Ids::new(alloc),
            require_response: Ids::new(alloc),
            expires: false,
            nonce: NonceUse::Ignore,
            tag: None,
            digest: DigestUse::Ignore,
        }
    }
}

impl NonceUse {
    /// What the word asks for; none where it is no word of a policy.
    pub fn of_word(word: &[u8]) -> Option<NonceUse>
        ensures { result ≡ nonce_use_of_word word.now }
    {
        if word == b"ignore".as_slice() {
            return Some(NonceUse::Ignore);
        }
        if word == b"check".as_slice() {
            return Some(NonceUse::Check);
        }
        if word == b"require".as_slice() {
            return Some(NonceUse::Require);
        }
        None
    }
}

impl DigestUse {
    /// When the word asks for a digest; none where it is no word of a policy.
    pub fn of_word(word: &[u8]) -> Option<DigestUse>
        ensures { result ≡ digest_use_of_word word.now }
    {
        if word == b"ignore".as_slice() {
            return Some(DigestUse::Ignore);
        }
        if word == b"content".as_slice() {
            return Some(DigestUse::Content);
        }
        if word == b"always".as_slice() {
            return Some(DigestUse::Always);
        }
        None
    }
}
