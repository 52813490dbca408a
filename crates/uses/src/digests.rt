// Tests of content_digest.

use crate::given::{is_text, message};
use content_digest::{Algorithm, DigestFault, check_digest, make_digest};
use msg_body::MessageView;
use std::alloc::Global;

// Requests with the content of RFC 9421 appendix B.2, `{"hello": "world"}`.
const HELLO: &[u8] = b"POST / HTTP/1.1\r\nContent-Length: 18\r\n\r\n{\"hello\": \"world\"}";

const CHUNKED: &[u8] = b"POST / HTTP/1.1\r\nTransfer-Encoding: chunked\r\n\r\n\
    5\r\n{\"hel\r\nD;a=b\r\nlo\": \"world\"}\r\n0\r\nA: b\r\n\r\n";

// The content of RFC 9530 section 2, whose last byte is LF.
const WITH_LF: &[u8] = b"POST / HTTP/1.1\r\nContent-Length: 19\r\n\r\n{\"hello\": \"world\"}\n";

// A request without content.
const BARE: &[u8] = b"GET / HTTP/1.1\r\n\r\n";

// A message, an algorithm, and the digest of the content by it; and the first bytes of that by
// SHA-256.
struct Made {
    message: &'static [u8],
    algorithm: Algorithm,
    text: &'static [u8],
    start: &'static [u8],
}

// RFC 9421 appendix B.2, RFC 9530 section 2 and appendix B.
const MADE: [Made; 7] = [
    Made {
        message: HELLO,
        algorithm: Algorithm::Sha256,
        text: b"sha-256=:X48E9qOokqqrvdts8nOJRJN3OWDUoyWxBf7kbu9DBPE=:",
        start: b"\x5f\x8f\x04\xf6\xa3\xa8\x92\xaa",
    },
    Made {
        message: HELLO,
        algorithm: Algorithm::Sha512,
        text: b"sha-512=:WZDPaVn/7XgHaAy8pmojAkGWoRx2UFChF41A2svX+TaPm\
            +AbwAgBWnrIiYllu7BNNyealdVLvRwEmTHWXvJwew==:",
        start: b"\x5f\x8f\x04\xf6\xa3\xa8\x92\xaa",
    },
    Made {
        message: CHUNKED,
        algorithm: Algorithm::Sha256,
        text: b"sha-256=:X48E9qOokqqrvdts8nOJRJN3OWDUoyWxBf7kbu9DBPE=:",
        start: b"\x5f\x8f\x04\xf6\xa3\xa8\x92\xaa",
    },
    Made {
        message: CHUNKED,
        algorithm: Algorithm::Sha512,
        text: b"sha-512=:WZDPaVn/7XgHaAy8pmojAkGWoRx2UFChF41A2svX+TaPm\
            +AbwAgBWnrIiYllu7BNNyealdVLvRwEmTHWXvJwew==:",
        start: b"\x5f\x8f\x04\xf6\xa3\xa8\x92\xaa",
    },
    Made {
        message: WITH_LF,
        algorithm: Algorithm::Sha256,
        text: b"sha-256=:RK/0qy18MlBSVnWgjwz6lZEWjP/lF5HF9bvEF8FabDg=:",
        start: b"\x44\xaf\xf4\xab\x2d\x7c\x32\x50",
    },
    Made {
        message: WITH_LF,
        algorithm: Algorithm::Sha512,
        text: b"sha-512=:YMAam51Jz/jOATT6/zvHrLVgOYTGFy1d6GJiOHTohq4yP\
            +pgk4vf2aCsyRZOtw8MjkM7iw7yZ/WkppmM44T3qg==:",
        start: b"\x44\xaf\xf4\xab\x2d\x7c\x32\x50",
    },
    Made {
        message: BARE,
        algorithm: Algorithm::Sha256,
        text: b"sha-256=:47DEQpj8HBSa+/TImW+5JCeuQeRkm5NMpJWZG3hSuFU=:",
        start: b"\xe3\xb0\xc4\x42\x98\xfc\x1c\x14",
    },
];

// Whether the fault has the three bytes that the text holds, and the digest of the content, which
// begins with these bytes. A verdict shows neither of the two.
fn is_mismatch(fault: &DigestFault, start: &[u8]) -> bool {
    match fault {
        DigestFault::Mismatch {
            algorithm,
            kept,
            computed,
        } => {
            *algorithm == Algorithm::Sha256
                && kept.bytes() == b"\0\0\0".as_slice()
                && computed.bytes().len() == 32
                && computed.bytes().starts_with(start)
        }
        _ => false,
    }
}

fn has_both(alloc: Global, view: &MessageView<'_>, start: &[u8]) -> bool {
    match check_digest(alloc, b"sha-256=:AAAA:", view) {
        Ok(_) => false,
        Err(fault) => is_mismatch(&fault, start),
    }
}

// Whether the digest is made, and agrees with the content, and another one doesn't.
fn is_made(alloc: Global, row: &Made) -> bool {
    match message(alloc, row.message) {
        Some(given) => {
            is_text(make_digest(alloc, row.algorithm, &given.view), row.text)
                && check_digest(alloc, row.text, &given.view).is_ok()
                && has_both(alloc, &given.view, row.start)
        }
        None => false,
    }
}

// The example of content_digest.
#[test]
fn digests_are_made_and_agree_and_a_fault_has_both(rt: HostRuntime) {
    for row in &MADE {
        assert!(rt; is_made(rt.alloc(), row));
    }
}
