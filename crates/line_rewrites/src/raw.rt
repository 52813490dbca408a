//! Raw values: their spacing, and what they become.

ghost use Rattle.std.specs.Prelude.{◌≡◌, ◌↔◌, IsTrue, option_map};
ghost use Rattle.byte_grammar.specs.Language.{starts_in};
ghost use Rattle.msg_body.specs.Spacing.{is_spacing, is_solid, ends_in};
ghost use Rattle.line_rewrites.specs.RawValues.{IsLoneSpace, IsBeforeLoneSpace, without_first_spacing, without_last_spacing};
ghost use Rattle.line_rewrites.specs.tools.Computed.{is_crlf_before, raw_text, padded, folded, unfolded, cut_at_comma, is_space_before_solid};

use byte_grammar::is_blank;

/// Whether the byte is SP, HTAB, CR or LF.
pub fn is_spacing(byte: u8) -> bool
    ensures { result ≡ is_spacing byte }
{
    is_blank(byte) || byte == b'\r' || byte == b'\n'
}

/// Whether the text begins with a byte that is no spacing.
fn starts_solid(text: &[u8]) -> bool
    ensures { result ≡ starts_in is_solid text.now }
{
    match text.split_first() {
        None => false,
        Some((first, _)) => !is_spacing(*first),
    }
}

/// Whether the text ends with a byte that is no spacing.
fn ends_solid(text: &[u8]) -> bool
    ensures { result ≡ ends_in is_solid text.now }
{
    match text.split_last() {
        None => false,
        Some((last, _)) => !is_spacing(*last),
    }
}

/// The text without the spacing at its start.
pub fn without_first_spacing(text: &[u8]) -> &[u8]
    ensures { result.now ≡ without_first_spacing text.now }
{
    let mut left = text;
    'first: while let Some((first, others)) = left.split_first() {
        if !is_spacing(*first) {
            return left;
        }
        left = others;
    }
    left
}

/// The text without the spacing at its end.
pub fn without_last_spacing(text: &[u8]) -> &[u8]
    ensures { result.now ≡ without_last_spacing text.now }
{
    let mut left = text;
    'last: while let Some((last, others)) = left.split_last() {
        if !is_spacing(*last) {
            return left;
        }
        left = others;
    }
    left
}

/// A raw value, in parts one after the other.
#[derive(Clone, Copy)]
pub(crate) struct RawParts<'t> {
    pub first: &'t [u8],
    pub second: &'t [u8],
    pub third: &'t [u8],
    pub last: &'t [u8],
}

/// The raw value in one part.
pub(crate) fn whole(raw: &[u8]) -> RawParts<'_>
    ensures { raw_text result ≡ raw.now }
{
    RawParts {
        first: raw,
        second: b"",
        third: b"",
        last: b"",
    }
}

/// The raw value with other blanks at its ends.
pub(crate) fn padded<'t>(raw: &'t [u8], before: &'t [u8], after: &'t [u8]) -> RawParts<'t>
    ensures { raw_text result ≡ padded before.now after.now raw.now }
{
    RawParts {
        first: before,
        second: without_last_spacing(without_first_spacing(raw)),
        third: b"",
        last: after,
    }
}

/// Whether the text ends with CRLF.
fn ends_with_crlf(text: &[u8]) -> bool
    ensures { result ≡ is_crlf_before text.now }
{
    match text {
        [.., b'\r', b'\n'] => true,
        _ => false,
    }
}

/// The raw value with CRLF and the blanks in place of the blank at the offset. A CRLF before it
/// would be that of an empty line.
pub(crate) fn folded<'t>(raw: &'t [u8], at: usize, blanks: &'t [u8]) -> Option<RawParts<'t>>
    ensures { option_map raw_text result ≡ folded at blanks.now raw.now }
{
    let (before, rest) = raw.split_at_checked(at)?;
    let (c, after) = rest.split_first()?;
    if !is_blank(*c) || blanks.is_empty() || ends_with_crlf(before) {
        return None;
    }
    Some(RawParts {
        first: before,
        second: b"\r\n",
        third: blanks,
        last: after,
    })
}

/// The raw value with SP in place of the CRLF at the offset and the spacing around it.
pub(crate) fn unfolded<'t>(raw: &'t [u8], at: usize) -> Option<RawParts<'t>>
    ensures { option_map raw_text result ≡ unfolded at raw.now }
{
    let (before, rest) = raw.split_at_checked(at)?;
    let after = rest.strip_prefix(b"\r\n")?;
    Some(RawParts {
        first: without_last_spacing(before),
        second: b" ",
        third: b"",
        last: without_first_spacing(after),
    })
}

/// What is before the comma at the offset, and after it.
pub(crate) fn cut_at_comma(raw: &[u8], at: usize) -> Option<(&[u8], &[u8])>
    ensures { option_map (λ parts. (parts.0.now, parts.1.now)) result ≡ cut_at_comma at raw.now }
{
    let (first, rest) = raw.split_at_checked(at)?;
    match rest {
        [b',', last @ ..] => Some((first, last)),
        _ => None,
    }
}

/// Whether a space is at the offset, and a byte that is no spacing before it and after it.
pub(crate) fn is_lone_space(raw: &[u8], at: usize) -> bool
    ensures { IsTrue result ↔ IsLoneSpace at raw.now }
{
    let Some((before, rest)) = raw.split_at_checked(at) else {
        return false;
    };
    match rest {
        [b' ', after @ ..] => ends_solid(before) && starts_solid(after),
        _ => false,
    }
}

/// Whether the text is a space, a byte that is no spacing, and more.
fn is_space_before_solid(text: &[u8]) -> bool
    ensures { result ≡ is_space_before_solid text.now }
{
    match text {
        [b' ', after @ ..] => starts_solid(after),
        _ => false,
    }
}

/// Whether before the byte at the offset is a byte that is no spacing, and after it a space and
/// then such a byte.
pub(crate) fn is_before_lone_space(raw: &[u8], at: usize) -> bool
    ensures { IsTrue result ↔ IsBeforeLoneSpace at raw.now }
{
    let Some((before, rest)) = raw.split_at_checked(at) else {
        return false;
    };
    let Some((_, later)) = rest.split_first() else {
        return false;
    };
    ends_solid(before) && is_space_before_solid(later)
}
