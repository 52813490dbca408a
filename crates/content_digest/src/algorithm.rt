//! The hash algorithms that are known.

ghost use Rattle.std.specs.Prelude.{◌≡◌};
ghost use Rattle.content_digest.specs.Algorithms.{key_of, algorithm_of};

/// A hash algorithm of the registry of RFC 9530 section 5. The others of the registry are
/// deprecated (RFC 9530 section 7.2), and aren't known here.
#[derive(Clone, Copy, Debug, PartialEq, Eq)]
pub enum Algorithm {
    /// `sha-256`, whose digests have 32 bytes (RFC 6234).
    Sha256,
    /// `sha-512`, whose digests have 64 bytes (RFC 6234).
    Sha512,
}

impl Algorithm {
    /// The key of its member in a Dictionary of digests (RFC 9530 section 5).
    pub fn key(self) -> &'static [u8]
        ensures { result.now ≡ key_of self }
    {
        match self {
            Algorithm::Sha256 => b"sha-256",
            Algorithm::Sha512 => b"sha-512",
        }
    }

    /// The algorithm whose key it is; None where no known one has it.
    pub fn of_key(key: &[u8]) -> Option<Algorithm>
        ensures { result ≡ algorithm_of key.now }
    {
        if key == b"sha-256".as_slice() {
            Some(Algorithm::Sha256)
        } else if key == b"sha-512".as_slice() {
            Some(Algorithm::Sha512)
        } else {
            None
        }
    }
}
