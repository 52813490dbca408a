//! The names of signature algorithms (RFC 9421 section 6.2.2).

ghost use Rattle.std.specs.Prelude.{◌≡◌};
ghost use Rattle.component_ids.specs.Table.{is_listed};
ghost use Rattle.signatures.specs.Algorithms.{refused_algorithms};

use byte_grammar::is_listed;

/// The name of the algorithm that is supported (RFC 9421 section 3.3.3).
pub const SUPPORTED_ALGORITHM: &[u8] = b"hmac-sha256";

/// The registered algorithms that aren't supported.
const REFUSED_ALGORITHMS: [&[u8]; 5] = [
    b"rsa-pss-sha512",
    b"rsa-v1_5-sha256",
    b"ecdsa-p256-sha256",
    b"ecdsa-p384-sha384",
    b"ed25519",
];

/// Whether the algorithm is registered and isn't supported.
pub fn is_refused_algorithm(alg: &[u8]) -> bool
    ensures { result ≡ is_listed refused_algorithms alg.now }
{
    is_listed(&REFUSED_ALGORITHMS, alg)
}
