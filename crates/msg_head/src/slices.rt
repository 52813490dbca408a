//! Parts of slices of bytes.

ghost use Rattle.std.specs.Prelude.{◌≡◌, ◌++◌, [], ◌∷◌, ◌≤◌, length, take, drop, false, IfSome, IfNone, IsTrue, IsFalse, codes};
ghost use Rattle.std.specs.List.{list_all};
ghost use Rattle.std.specs.Str.{byte};
ghost use Rattle.msg_head.specs.tools.Texts.{BeginsWithCrlf};
ghost use Rattle.byte_grammar.specs.Classes.{is_tchar};
ghost use Rattle.byte_grammar.specs.Language.{starts_in};
ghost use Rattle.msg_head.specs.tools.Prefixes.{EndsAt, StandsBefore, NoneStandsBefore};

use byte_grammar::{ByteClass, Class, read_all, rest_after};

/// The first bytes, so many, or all where there are fewer.
pub(crate) fn prefix_of(bytes: &[u8], count: usize) -> &[u8]
    ensures { result.now ≡ take count bytes.now }
{
    if bytes.len() <= count {
        bytes
    } else {
        &bytes[..count]
    }
}

/// The bytes from that offset on.
pub(crate) fn rest_from(bytes: &[u8], offset: usize) -> &[u8]
    requires { offset ≤ length bytes.now }
    ensures { result.now ≡ drop offset bytes.now }
{
    &bytes[offset..]
}

/// Whether the bytes begin with CRLF.
pub(crate) fn begins_with_crlf(bytes: &[u8]) -> bool
    ensures yes { IsTrue result → BeginsWithCrlf bytes.now }
    ensures not { IsFalse result → ¬ BeginsWithCrlf bytes.now }
{
    rest_after(b"\r\n", bytes).is_some()
}

// Where the bytes of the class that are first end, if they do among these. The loop is over an
// array, so it is unrolled. It and what calls it are inlined, so that the class is known there.
#[inline(always)]
fn first_outside<C: ByteClass>(class: C, chunk: &[u8; 16]) -> Option<usize>
    ensures some { IfSome result (λ n. EndsAt (C.members class) n chunk.now) }
    ensures none { IfNone result (IsTrue (list_all (C.members class) chunk.now)) }
{
    for (n, byte) in chunk.iter().enumerate() {
        if !class.allows(*byte) {
            return Some(n);
        }
    }
    None
}

// The bytes of the class that are first, and what comes after them, read by sixteen at a time.
#[inline(always)]
fn split_class<C: ByteClass>(class: C, bytes: &[u8]) -> (&[u8], &[u8])
    ensures joined { bytes.now ≡ result.0.now ++ result.1.now }
    ensures all { IsTrue (list_all (C.members class) result.0.now) }
    ensures ends { IsFalse (starts_in (C.members class) result.1.now) }
{
    let mut left = bytes;
    'chunks: while let Some(chunk) = left.first_chunk::<16>() {
        if let Some(n) = first_outside(class, chunk) {
            return bytes.split_at(bytes.len() - left.len() + n);
        }
        left = rest_from(left, 16);
    }
    let (_, rest) = read_all(class, left);
    bytes.split_at(bytes.len() - rest.len())
}

/// The bytes of the class that are first, where such an end comes after them, and what comes
/// after it.
#[inline(always)]
pub(crate) fn prefix_before<'m, C: ByteClass>(
    class: C,
    end: u8,
    bytes: &'m [u8],
) -> Option<(&'m [u8], &'m [u8])>
    requires { C.members class end ≡ false }
    ensures some { IfSome result
        (λ parts. StandsBefore (C.members class) (end ∷ []) parts.0.now parts.1.now bytes.now) }
    ensures none { IfNone result (NoneStandsBefore (C.members class) (end ∷ []) bytes.now) }
{
    let (prefix, others) = split_class(class, bytes);
    let (first, rest) = others.split_first()?;
    if *first == end {
        Some((prefix, rest))
    } else {
        None
    }
}

// Where the tchars that are first end, if they do among the first sixteen bytes.
fn end_nearby(bytes: &[u8]) -> Option<usize>
    ensures { IfSome result (λ n. EndsAt is_tchar n bytes.now) }
{
    let chunk = bytes.first_chunk::<16>()?;
    first_outside(Class::Tchar, chunk)
}

// The tchars that are first, and what comes after them.
fn split_tchars(bytes: &[u8]) -> (&[u8], &[u8])
    ensures joined { bytes.now ≡ result.0.now ++ result.1.now }
    ensures all { IsTrue (list_all is_tchar result.0.now) }
    ensures ends { IsFalse (starts_in is_tchar result.1.now) }
{
    match end_nearby(bytes) {
        Some(n) => bytes.split_at(n),
        None => read_all(Class::Tchar, bytes),
    }
}

/// The tchars that are first, where a colon comes after them, and what comes after it. This is
/// `prefix_before`, but faster for short names.
pub(crate) fn split_name(bytes: &[u8]) -> Option<(&[u8], &[u8])>
    ensures some { IfSome result
        (λ parts. StandsBefore is_tchar (byte ":" ∷ []) parts.0.now parts.1.now bytes.now) }
    ensures none { IfNone result (NoneStandsBefore is_tchar (byte ":" ∷ []) bytes.now) }
{
    let (name, others) = split_tchars(bytes);
    let (first, rest) = others.split_first()?;
    if *first == b':' {
        Some((name, rest))
    } else {
        None
    }
}

/// The bytes of the class before the line's end, where nothing else comes before it, and what comes
/// after it.
#[inline(always)]
pub(crate) fn prefix_before_crlf<'m, C: ByteClass>(
    class: C,
    bytes: &'m [u8],
) -> Option<(&'m [u8], &'m [u8])>
    requires { C.members class (byte "\r") ≡ false }
    ensures some { IfSome result
        (λ parts. StandsBefore (C.members class) (codes "\r\n") parts.0.now parts.1.now bytes.now) }
    ensures none { IfNone result (NoneStandsBefore (C.members class) (codes "\r\n") bytes.now) }
{
    let (prefix, rest) = prefix_before(class, b'\r', bytes)?;
    let rest = rest_after(b"\n", rest)?;
    Some((prefix, rest))
}
