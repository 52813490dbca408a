//! Authorities.

ghost use Rattle.std.specs.Prelude.{◌≡◌, ◌++◌, ℕ, List, Option, option_map, IfSome, IfNone};
ghost use Rattle.std.specs.Str.{str_eq_ignore_ascii_case};
ghost use Rattle.derived_values.specs.Authorities.{IsAuthority, IsAuthorityFor, is_default_port, kept_port, authority_text};
ghost use Rattle.derived_values.specs.Views.{authority_parts};
ghost use Rattle.derived_values.specs.tools.Parts.{BeginsWithHost, BeginsWithRegName, BeginsWithLiteral};

use crate::feed::{feed_lowered, feed_marked};
use crate::parts::read_marked;
use crate::uri_byte::UriByte;
use byte_grammar::{Class, read_all, rest_after};
use sfv_text::Absorb;

/// An authority without userinfo, borrowed from its text (RFC 3986 section 3.2).
#[derive(Clone, Copy, PartialEq, Eq)]
pub struct Authority<'m> {
    /// The host as it is written, not empty, with its brackets where it has some.
    pub host: &'m [u8],
    /// The digits of the port; None where there is no port, or an empty one, or the scheme's
    /// default one.
    pub port: Option<&'m [u8]>,
}

// The name that the bytes begin with, and what comes after it.
fn read_reg_name(bytes: &[u8]) -> Option<(&[u8], &[u8])>
    ensures some { IfSome result (λ parts. BeginsWithRegName bytes.now parts.0.now parts.1.now) }
    ensures none { IfNone result ((host rest : List ℕ) →
        ¬ BeginsWithRegName bytes.now host rest) }
{
    let (host, rest) = read_all(UriByte::Host, bytes);
    if host.is_empty() {
        return None;
    }
    Some((host, rest))
}

// The host in brackets that the bytes begin with, and what comes after it.
fn read_literal(bytes: &[u8]) -> Option<(&[u8], &[u8])>
    ensures some { IfSome result (λ parts. BeginsWithLiteral bytes.now parts.0.now parts.1.now) }
    ensures none { IfNone result ((host rest : List ℕ) →
        ¬ BeginsWithLiteral bytes.now host rest) }
{
    let after = rest_after(b"[", bytes)?;
    let (inner, closed) = read_all(UriByte::Literal, after);
    if inner.is_empty() {
        return None;
    }
    rest_after(b"]", closed)?;
    Some(bytes.split_at(inner.len() + 2))
}

// The host that the bytes begin with, and what comes after it.
fn read_host(bytes: &[u8]) -> Option<(&[u8], &[u8])>
    ensures some { IfSome result (λ parts. BeginsWithHost bytes.now parts.0.now parts.1.now) }
    ensures none { IfNone result ((host rest : List ℕ) → ¬ BeginsWithHost bytes.now host rest) }
{
    if let Some(parts) = read_literal(bytes) {
        return Some(parts);
    }
    read_reg_name(bytes)
}

// Whether the schemes are one, in whatever case they are written (RFC 3986 section 3.1).
fn is_same_scheme(scheme: &[u8], other: &[u8]) -> bool
    ensures { result ≡ str_eq_ignore_ascii_case scheme.now other.now }
{
    scheme.eq_ignore_ascii_case(other)
}

// Whether the port is the default one of the scheme, in whatever case that is written.
fn is_default_port(scheme: &[u8], port: &[u8]) -> bool
    ensures { result ≡ is_default_port scheme.now port.now }
{
    if is_same_scheme(scheme, b"http") {
        return port == b"80".as_slice();
    }
    if is_same_scheme(scheme, b"https") {
        return port == b"443".as_slice();
    }
    false
}

// The port, where it has digits and isn't the default one of the scheme.
fn kept_port<'m>(scheme: &[u8], port: Option<&'m [u8]>) -> Option<&'m [u8]>
    ensures { option_map (λ text. text.now) result
        ≡ kept_port scheme.now (option_map (λ text. text.now) port.entry) }
{
    let digits = port?;
    if digits.is_empty() {
        return None;
    }
    if is_default_port(scheme, digits) {
        return None;
    }
    Some(digits)
}

/// The authority that the text is; None where it is none, as with userinfo, an empty host or a port
/// that isn't digits (RFC 3986 section 3.2). The port is dropped where it is empty or the default
/// one of the scheme, which may be written in any case (RFC 9421 section 2.2.3).
pub fn authority_of<'m>(text: &'m [u8], scheme: &[u8]) -> Option<Authority<'m>>
    ensures some { IfSome result (λ authority.
        IsAuthorityFor scheme.now text.now (authority_parts authority)) }
    ensures none { IfNone result ((host : List ℕ) (port : Option (List ℕ)) →
        ¬ IsAuthority text.now host port) }
{
    let (host, rest) = read_host(text)?;
    let port = read_marked(b':', Class::Digit, rest)?;
    Some(Authority {
        host,
        port: kept_port(scheme, port),
    })
}

impl<'m> Authority<'m> {
    /// Feeds the value: the host in lower case, and a colon and the port where there is one (RFC
    /// 9421 section 2.2.3). It takes no memory and can't fail.
    pub fn feed<A: Absorb>(&self, into: &mut A)
        ensures { (fed : List ℕ) → A.absorbed into.old fed → A.absorbed into.new
            (fed ++ authority_text (authority_parts self.now)) }
    {
        feed_lowered(self.host, into);
        feed_marked(b':', self.port, into);
    }
}
