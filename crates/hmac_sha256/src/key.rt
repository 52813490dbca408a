//! The key as a block of SHA-256, and under the pads.

ghost use Rattle.std.specs.Prelude.{◌≡◌, ◌≤◌, length};
ghost use Rattle.hmac_sha256.specs.Hmac.{block_size, block_of, key_block, xor_each};

use sha2::{Digest, Sha256};

/// The bytes of a block, B in RFC 2104 section 2.
pub const BLOCK_SIZE: usize = 64;

/// The byte that ipad repeats (RFC 2104 section 2).
pub const IPAD: u8 = 0x36;

/// The byte that opad repeats (RFC 2104 section 2).
pub const OPAD: u8 = 0x5C;

// The bytes, and zero bytes up to a block.
fn block_of(bytes: &[u8]) -> [u8; BLOCK_SIZE]
    requires { length bytes.now ≤ block_size }
    ensures { result ≡ block_of bytes.now }
{
    let mut block = [0; BLOCK_SIZE];
    block[..bytes.len()].copy_from_slice(bytes);
    block
}

/// The key as a block. A key that is longer than one is hashed first.
pub fn key_block(key: &[u8]) -> [u8; BLOCK_SIZE]
    ensures { result ≡ key_block key.now }
{
    if key.len() > BLOCK_SIZE {
        return block_of(&Sha256::digest(key));
    }
    block_of(key)
}

/// Each byte of the block XOR the pad's byte.
pub fn xor_each(block: &[u8; BLOCK_SIZE], pad: u8) -> [u8; BLOCK_SIZE]
    ensures { result ≡ xor_each pad block.now }
{
    let mut out = *block;
    'bytes: for i in 0..BLOCK_SIZE {
        out[i] ^= pad;
    }
    out
}
