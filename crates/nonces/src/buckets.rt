//! The buckets of a book.

ghost use Rattle.std.specs.Prelude.{◌≡◌, ◌<◌, ◌≤◌, length};
ghost use Rattle.nonces.specs.Buckets.{IsLeastPowerOfTwo, bucket_of};
ghost use Rattle.nonces.specs.declared.limits.TheConstants.{MAX_ENTRIES, MAX_KEYID_BYTES};

use sha2::{Digest, Sha256};

/// How many buckets a book of this capacity has.
pub fn bucket_count(capacity: usize) -> usize
    requires { capacity ≤ MAX_ENTRIES }
    ensures { IsLeastPowerOfTwo capacity result }
{
    let mut count = 1;
    'powers: while count < capacity {
        count *= 2;
    }
    count
}

/// The bucket of a keyid and a nonce, of so many.
pub fn bucket_of(count: usize, keyid: &[u8], nonce: &[u8]) -> usize
    requires some { 0 < count }
    requires keyid { length keyid.now ≤ MAX_KEYID_BYTES }
    ensures { result ≡ bucket_of count keyid.now nonce.now }
{
    let mut hasher = Sha256::new();
    hasher.update(&[keyid.len() as u8]);
    hasher.update(keyid);
    hasher.update(nonce);
    let hash = hasher.finalize();
    u32::from_be_bytes([hash[0], hash[1], hash[2], hash[3]]) as usize % count
}
