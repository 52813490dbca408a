//! Start lines.

ghost use Rattle.std.specs.Prelude.{◌≡◌, IfSome, IfNone, option_map};
ghost use Rattle.msg_head.specs.Starts.{is_version, is_code};
ghost use Rattle.msg_head.specs.Views.{start_line_of};
ghost use Rattle.msg_head.specs.tools.Prefixes.{BeginsWithStart, BeginsWithNoStart, BeginsWithRequest, BeginsWithNoRequest, BeginsWithStatus, BeginsWithNoStatus, IsCodeAndReason, NoCodeAndReason};

use crate::slices::{prefix_before, prefix_before_crlf};
use byte_grammar::{Class, allows_all};

/// A start line, borrowed from the bytes of its message (RFC 9112 section 2.1).
#[derive(Clone, Copy)]
pub enum Start<'m> {
    /// A request line (RFC 9112 section 3).
    Request {
        /// The method, a token (RFC 9110 section 9.1).
        method: &'m [u8],
        /// The target, visible ASCII (RFC 9112 section 3.2). Its inner grammar isn't judged.
        target: &'m [u8],
        /// The version, `HTTP/1.1` or `HTTP/1.0` (RFC 9112 section 2.3).
        version: &'m [u8],
    },
    /// A status line (RFC 9112 section 4).
    Status {
        /// The version, `HTTP/1.1` or `HTTP/1.0` (RFC 9112 section 2.3).
        version: &'m [u8],
        /// The status code, three digits (RFC 9110 section 15).
        code: &'m [u8],
        /// The reason phrase, which may be empty; None where no SP comes after the code.
        reason: Option<&'m [u8]>,
    },
}

// Whether the text is a version that is read.
fn is_version(text: &[u8]) -> bool
    ensures { result ≡ is_version text.now }
{
    text == b"HTTP/1.1".as_slice() || text == b"HTTP/1.0".as_slice()
}

// The request line that the bytes begin with, and what comes after it.
fn read_request(bytes: &[u8]) -> Option<(Start<'_>, &[u8])>
    ensures some { IfSome result
        (λ parts. BeginsWithRequest (start_line_of parts.0) parts.1.now bytes.now) }
    ensures none { IfNone result (BeginsWithNoRequest bytes.now) }
{
    let (method, after_method) = prefix_before(Class::Tchar, b' ', bytes)?;
    if method.is_empty() {
        return None;
    }
    let (target, after_target) = prefix_before(Class::Visible, b' ', after_method)?;
    if target.is_empty() {
        return None;
    }
    let (version, rest) = prefix_before_crlf(Class::Visible, after_target)?;
    if !is_version(version) {
        return None;
    }
    Some((
        Start::Request {
            method,
            target,
            version,
        },
        rest,
    ))
}

/// Whether the text is a status code: three digits (RFC 9112 section 4).
pub fn is_code(text: &[u8]) -> bool
    ensures { result ≡ is_code text.now }
{
    text.len() == 3 && allows_all(Class::Digit, text)
}

// The code and the reason that the text is.
fn split_code(text: &[u8]) -> Option<(&[u8], Option<&[u8]>)>
    ensures some { IfSome result (λ parts.
        IsCodeAndReason parts.0.now (option_map (λ reason. reason.now) parts.1) text.now) }
    ensures none { IfNone result (NoCodeAndReason text.now) }
{
    if let Some((code, reason)) = prefix_before(Class::Digit, b' ', text) {
        if is_code(code) {
            return Some((code, Some(reason)));
        }
        return None;
    }
    if is_code(text) {
        return Some((text, None));
    }
    None
}

// The status line that the bytes begin with, and what comes after it.
fn read_status(bytes: &[u8]) -> Option<(Start<'_>, &[u8])>
    ensures some { IfSome result
        (λ parts. BeginsWithStatus (start_line_of parts.0) parts.1.now bytes.now) }
    ensures none { IfNone result (BeginsWithNoStatus bytes.now) }
{
    let (version, after_version) = prefix_before(Class::Visible, b' ', bytes)?;
    if !is_version(version) {
        return None;
    }
    let (text, rest) = prefix_before_crlf(Class::LineByte, after_version)?;
    let (code, reason) = split_code(text)?;
    Some((
        Start::Status {
            version,
            code,
            reason,
        },
        rest,
    ))
}

/// The start line that the bytes begin with, and what comes after it.
pub(crate) fn read_start(bytes: &[u8]) -> Option<(Start<'_>, &[u8])>
    ensures some { IfSome result
        (λ parts. BeginsWithStart (start_line_of parts.0) parts.1.now bytes.now) }
    ensures none { IfNone result (BeginsWithNoStart bytes.now) }
{
    if let Some(found) = read_request(bytes) {
        return Some(found);
    }
    read_status(bytes)
}
