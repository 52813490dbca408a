//! Request targets.

ghost use Rattle.std.specs.Prelude.{◌≡◌, ◌↔◌, ℕ, List, Option, option_map, IfSome, IfNone, IsTrue, codes};
ghost use Rattle.derived_values.specs.Targets.{TargetParts, IsOriginForm, IsAbsoluteForm, IsAuthorityForm, IsAsteriskForm, IsOtherForm, SpellsTarget, has_path, path_of, query_of};
ghost use Rattle.derived_values.specs.Views.{parts_of};
ghost use Rattle.derived_values.specs.tools.Parts.{IsPathAndQuery, BeginsWithScheme};

use crate::parts::read_marked;
use crate::uri_byte::UriByte;
use byte_grammar::{Byte, Class, allows_all, read_all, read_word, rest_after, starts_with};

/// The forms of a request target (RFC 9112 section 3.2).
#[derive(Clone, Copy, PartialEq, Eq)]
pub enum Form {
    /// A path and a query (section 3.2.1).
    Origin,
    /// A whole URI (section 3.2.2).
    Absolute,
    /// An authority alone, of CONNECT (section 3.2.3).
    Authority,
    /// `*` alone (section 3.2.4).
    Asterisk,
}

/// The parts of a request target, borrowed from it. A part that the form doesn't have is None, or
/// empty.
#[derive(Clone, Copy, PartialEq, Eq)]
pub struct Target<'m> {
    /// The form.
    pub form: Form,
    /// The scheme as it is written (RFC 3986 section 3.1).
    pub scheme: Option<&'m [u8]>,
    /// The authority, which may be empty. Its inner grammar isn't judged.
    pub authority: Option<&'m [u8]>,
    /// The path, which may be empty (RFC 3986 section 3.3).
    pub path: &'m [u8],
    /// What comes after the first `?` (RFC 3986 section 3.4); None where there is none.
    pub query: Option<&'m [u8]>,
}

// The path and the query that the bytes are.
fn split_path(bytes: &[u8]) -> Option<(&[u8], Option<&[u8]>)>
    ensures some { IfSome result (λ parts.
        IsPathAndQuery bytes.now parts.0.now (option_map (λ text. text.now) parts.1)) }
    ensures none { IfNone result ((path : List ℕ) (query : Option (List ℕ)) →
        ¬ IsPathAndQuery bytes.now path query) }
{
    let (path, rest) = read_all(UriByte::Path, bytes);
    let query = read_marked(b'?', UriByte::Query, rest)?;
    Some((path, query))
}

// The parts of the target in origin form.
fn cut_origin(target: &[u8]) -> Option<Target<'_>>
    ensures some { IfSome result (λ parts. IsOriginForm target.now (parts_of parts)) }
    ensures none { IfNone result ((parts : TargetParts) → ¬ IsOriginForm target.now parts) }
{
    let (path, query) = split_path(target)?;
    if !starts_with(Byte(b'/'), path) {
        return None;
    }
    Some(Target {
        form: Form::Origin,
        scheme: None,
        authority: None,
        path,
        query,
    })
}

// The scheme before `://`, and what comes after it.
fn split_scheme(bytes: &[u8]) -> Option<(&[u8], &[u8])>
    ensures some { IfSome result (λ parts. BeginsWithScheme bytes.now parts.0.now parts.1.now) }
    ensures none { IfNone result ((scheme rest : List ℕ) →
        ¬ BeginsWithScheme bytes.now scheme rest) }
{
    let Ok((scheme, after)) = read_word(Class::Alpha, UriByte::Scheme, bytes) else {
        return None;
    };
    let rest = rest_after(b"://", after)?;
    Some((scheme, rest))
}

// The parts of the target in absolute form.
fn cut_absolute(target: &[u8]) -> Option<Target<'_>>
    ensures some { IfSome result (λ parts. IsAbsoluteForm target.now (parts_of parts)) }
    ensures none { IfNone result ((parts : TargetParts) → ¬ IsAbsoluteForm target.now parts) }
{
    let (scheme, after) = split_scheme(target)?;
    let (authority, rest) = read_all(UriByte::Authority, after);
    let (path, query) = split_path(rest)?;
    Some(Target {
        form: Form::Absolute,
        scheme: Some(scheme),
        authority: Some(authority),
        path,
        query,
    })
}

// The parts of the target in authority form.
fn cut_authority(target: &[u8]) -> Option<Target<'_>>
    ensures some { IfSome result (λ parts. IsAuthorityForm target.now (parts_of parts)) }
    ensures none { IfNone result ((parts : TargetParts) → ¬ IsAuthorityForm target.now parts) }
{
    if !allows_all(UriByte::Authority, target) {
        return None;
    }
    Some(Target {
        form: Form::Authority,
        scheme: None,
        authority: Some(target),
        path: b"",
        query: None,
    })
}

// The parts of the target in asterisk form.
fn cut_asterisk(target: &[u8]) -> Option<Target<'_>>
    ensures some { IfSome result (λ parts. IsAsteriskForm target.now (parts_of parts)) }
    ensures none { IfNone result ((parts : TargetParts) → ¬ IsAsteriskForm target.now parts) }
{
    if target != b"*".as_slice() {
        return None;
    }
    Some(Target {
        form: Form::Asterisk,
        scheme: None,
        authority: None,
        path: b"",
        query: None,
    })
}

// Whether the method is CONNECT (RFC 9110 section 9.3.6).
fn is_connect(method: &[u8]) -> bool
    ensures { IsTrue result ↔ (method.now ≡ codes "CONNECT") }
{
    method == b"CONNECT".as_slice()
}

// The parts of the target of another method than CONNECT.
fn cut_other(target: &[u8]) -> Option<Target<'_>>
    ensures some { IfSome result (λ parts. IsOtherForm target.now (parts_of parts)) }
    ensures none { IfNone result ((parts : TargetParts) → ¬ IsOtherForm target.now parts) }
{
    if let Some(parts) = cut_origin(target) {
        return Some(parts);
    }
    if let Some(parts) = cut_absolute(target) {
        return Some(parts);
    }
    cut_asterisk(target)
}

/// The parts of a request's target; None where it is in none of the four forms (RFC 9112 section
/// 3.2). With the method CONNECT that is authority form, with every other one of the three others.
pub fn cut_target<'m>(method: &[u8], target: &'m [u8]) -> Option<Target<'m>>
    ensures some { IfSome result (λ parts. SpellsTarget method.now target.now (parts_of parts)) }
    ensures none { IfNone result ((parts : TargetParts) →
        ¬ SpellsTarget method.now target.now parts) }
{
    if is_connect(method) {
        return cut_authority(target);
    }
    cut_other(target)
}

// Whether a target of the form has a path and a query.
fn has_path(form: Form) -> bool
    ensures { result ≡ has_path form }
{
    matches!(form, Form::Origin | Form::Absolute)
}

/// The path, `/` where it is empty; None in authority form and in asterisk form (RFC 9421 section
/// 2.2.6).
pub fn path_of<'m>(target: &Target<'m>) -> Option<&'m [u8]>
    ensures { option_map (λ path. path.now) result ≡ path_of (parts_of target.now) }
{
    if !has_path(target.form) {
        return None;
    }
    if target.path.is_empty() {
        return Some(b"/");
    }
    Some(target.path)
}

/// The query, if there is one; None in authority form and in asterisk form (RFC 9421
/// section 2.2.7).
pub fn query_of<'m>(target: &Target<'m>) -> Option<Option<&'m [u8]>>
    ensures { option_map (λ query. option_map (λ text. text.now) query) result
        ≡ query_of (parts_of target.now) }
{
    if !has_path(target.form) {
        return None;
    }
    Some(target.query)
}
