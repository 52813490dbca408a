// Tests of hmac_sha256.

use hmac_sha256::{Hmac, HmacKey, same_tag};
use sfv_text::Absorb;
use std::alloc::Global;

const DIGITS: &[u8; 16] = b"0123456789abcdef";

struct Vector<'a> {
    key: &'a [u8],
    text: &'a [u8],
    // The hexadecimal digits of the tag, or of its first bytes.
    tag: &'a [u8],
}

// RFC 4231 sections 4.2 to 4.8, and keys of other lengths.
const VECTORS: [Vector<'static>; 13] = [
    Vector {
        key: &[0x0b; 20],
        text: b"Hi There",
        tag: b"b0344c61d8db38535ca8afceaf0bf12b881dc200c9833da726e9376c2e32cff7",
    },
    Vector {
        key: b"Jefe",
        text: b"what do ya want for nothing?",
        tag: b"5bdcc146bf60754e6a042426089575c75a003f089d2739839dec58b964ec3843",
    },
    Vector {
        key: &[0xaa; 20],
        text: &[0xdd; 50],
        tag: b"773ea91e36800e46854db8ebd09181a72959098b3ef8c122d9635514ced565fe",
    },
    Vector {
        key: b"\x01\x02\x03\x04\x05\x06\x07\x08\x09\x0a\x0b\x0c\x0d\x0e\x0f\x10\x11\x12\x13\x14\
\x15\x16\x17\x18\x19",
        text: &[0xcd; 50],
        tag: b"82558a389a443c0ea4cc819899f2083a85f0faa3e578f8077a2e3ff46729665b",
    },
    // The RFC gives the first 16 bytes alone.
    Vector {
        key: &[0x0c; 20],
        text: b"Test With Truncation",
        tag: b"a3b6167473100ee06e0c796c2955552b",
    },
    Vector {
        key: &[0xaa; 131],
        text: b"Test Using Larger Than Block-Size Key - Hash Key First",
        tag: b"60e431591ee0b67f0d8a26aacbf5b77f8e0bc6213728c5140546040f0ee37f54",
    },
    Vector {
        key: &[0xaa; 131],
        text: b"This is a test using a larger than block-size key and a larger than \
block-size data. The key needs to be hashed before being used by the HMAC algorithm.",
        tag: b"9b09ffa71b942fcb27635fbcd5b0e944bfdc63644f0713938a7f51535c3a35e2",
    },
    Vector {
        key: b"",
        text: b"abc",
        tag: b"fd7adb152c05ef80dccf50a1fa4c05d5a3ec6da95575fc312ae7c5d091836351",
    },
    Vector {
        key: b"k",
        text: b"abc",
        tag: b"342e519ce0ad6c03a36b98eeb3f1d130db4813b9df4d1160eda488d712dc78ee",
    },
    Vector {
        key: &[b'k'; 63],
        text: b"abc",
        tag: b"23670528b6b8c55d2f8ef2f36c1f000cec7c23ec76881c485f2e89b5fe705cca",
    },
    Vector {
        key: &[b'k'; 64],
        text: b"abc",
        tag: b"ae0c0e4a2340cf50185eb46aaa8723f4769153661612e212fb0d1fa3170c6202",
    },
    Vector {
        key: &[b'k'; 65],
        text: b"abc",
        tag: b"ed378e5dfa30dc98814ba09b2e610d9b6af66054922ceef9480da094a3f11b2d",
    },
    Vector {
        key: &[b'k'; 1024],
        text: b"abc",
        tag: b"ccd218d8349d9af3c8077ff11c2835b2a28298b2f9aa18e1aab12ab4742d5895",
    },
];

// Two digits a byte.
fn hex(tag: &[u8; 32]) -> [u8; 64] {
    let mut text = [0; 64];
    for i in 0..32 {
        text[2 * i] = DIGITS[usize::from(tag[i] / 16)];
        text[2 * i + 1] = DIGITS[usize::from(tag[i] % 16)];
    }
    text
}

// Whether this is the tag of the text, the first bytes of which are added and the others fed.
fn is_tag_by(hmac: Hmac, vector: &Vector<'_>, count: usize) -> bool {
    let (first, second) = vector.text.split_at(count.min(vector.text.len()));
    let mut hmac = hmac;
    hmac.update(first);
    hmac.absorb(second);
    let digits = hex(&hmac.finish());
    same_tag(&digits[..vector.tag.len().min(64)], vector.tag)
}

// Whether a kept key gives it, too, twice, of which the first doesn't change the key.
fn is_tag_of_kept(key: &HmacKey, vector: &Vector<'_>) -> bool {
    key.bytes() == vector.key
        && is_tag_by(key.hmac(), vector, 1)
        && is_tag_by(key.hmac(), vector, 0)
}

fn is_tag_of(alloc: Global, vector: &Vector<'_>) -> bool {
    match HmacKey::of(alloc, vector.key) {
        Ok(key) => {
            is_tag_by(Hmac::new(vector.key), vector, 0)
                && is_tag_by(Hmac::new(vector.key), vector, 1)
                && is_tag_by(Hmac::new(vector.key), vector, 999)
                && is_tag_of_kept(&key, vector)
        }
        Err(_) => false,
    }
}

#[test]
fn tags_are_those_of_rfc_4231_however_the_text_is_cut_and_of_kept_keys(rt: HostRuntime) {
    for vector in &VECTORS {
        assert!(rt; is_tag_of(rt.alloc(), vector));
    }
}
