//! How messages are signed.

ghost use Rattle.std.specs.Prelude.{◌≡◌};
ghost use Rattle.settings.specs.Words.{sign_digest_of_word};

use component_ids::Ids;
use sfv_text::Text;

/// How messages are signed: the table `sign`.
#[derive(Drop)]
pub struct SignConf {
    /// The label of the signature, a key of a Dictionary (RFC 9421 section 4).
    pub label: Text,
    /// The keyid of a key of the configuration.
    pub keyid: Text,
    /// The components that are covered in a request.
    pub components_request: Ids,
    /// The components that are covered in a response.
    pub components_response: Ids,
    /// How many seconds after its creation the signature expires, where it does.
    pub expires_after: Option<u64>,
    /// Whether the parameter `alg` is given.
    pub alg: bool,
    /// The value of the parameter `tag`, where it is given.
    pub tag: Option<Text>,
    /// The digest that is added to the message.
    pub digest: SignDigest,
}

/// The digest of the content that is added to a message before it is signed (RFC 9530 section 2).
#[derive(Clone, Copy, PartialEq, Eq)]
pub enum SignDigest {
    /// No digest is added.
    No,
    /// `sha-256`
    Sha256,
    /// `sha-512`
    Sha512,
}

impl SignDigest {
    /// The digest that the word asks for; none where it is no word of a configuration.
    pub fn of_word(word: &[u8]) -> Option<SignDigest>
        ensures { result ≡ sign_digest_of_word word.now }
    {
        if word == b"none".as_slice() {
            return Some(SignDigest::No);
        }
        if word == b"sha-256".as_slice() {
            return Some(SignDigest::Sha256);
        }
        if word == b"sha-512".as_slice() {
            return Some(SignDigest::Sha512);
        }
        None
    }
}
