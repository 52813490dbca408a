//! Field lines.

ghost use Rattle.std.specs.Prelude.{◌≡◌, ◌+◌, ◌<◌, ◌≤◌, ◌^◌, ℕ, List, length, IsTrue, IsSomeAnd, IfSome, IfOk, IfErr, MatchOption};
ghost use Rattle.std.specs.Str.{byte};
ghost use Rattle.byte_grammar.specs.Classes.{is_blank};
ghost use Rattle.memchr.specs.Find.{IsFirstByte, is_byte3};
ghost use Rattle.byte_grammar.specs.Language.{starts_in};
ghost use Rattle.msg_head.specs.RawValues.{RawPieces, pieces_text};
ghost use Rattle.msg_head.specs.Cuts.{AreLinesOf, MakesNoLine};
ghost use Rattle.msg_head.specs.Views.{line_at, lies_in, field_line_of};
ghost use Rattle.msg_head.specs.tools.Texts.{BeginsWithPieces, BeginsWithCut, IsCleanUpTo, IsCleanUpToCrlf};
ghost use Rattle.msg_head.specs.tools.Prefixes.{ReadsLine};
ghost use Rattle.msg_head.specs.tools.Sections.{IsRestOf, AreSpansOf, IsLinesFault, IsFaultFrom, span_at};

use crate::error::{HeadError, Side};
use crate::limits::MAX_HEAD_LINES;
use crate::slices::{begins_with_crlf, rest_from, split_name};
use byte_grammar::{is_blank, rest_after};
use line_index::LineSpan;
use memchr::memchr3_iter;
use std::alloc::Global;

/// A field line, borrowed from the bytes of its message (RFC 9112 section 5).
#[derive(Clone, Copy)]
pub struct LineView<'m> {
    /// The name as it is written, a token (RFC 9110 section 5.1).
    pub name: &'m [u8],
    /// All that is between the colon and the line's end, blanks and folds included.
    pub raw: &'m [u8],
}

/// The field line that is at these offsets.
pub(crate) fn line_at<'m>(bytes: &'m [u8], span: LineSpan) -> LineView<'m>
    requires { IsTrue (lies_in (length bytes.now) span) }
    ensures { field_line_of result ≡ line_at bytes.now span }
{
    LineView {
        name: &bytes[span.name..span.colon],
        raw: &bytes[span.colon + 1..span.end],
    }
}

// Whether a blank is first.
fn starts_with_blank(bytes: &[u8]) -> bool
    ensures { result ≡ starts_in is_blank bytes.now }
{
    bytes.first().is_some_and(|byte| is_blank(*byte))
}

// Where the first NUL, CR or LF is. Most lines are short, and the iterator looks at 32 bytes first,
// `memchr3` at 64.
fn first_end(text: &[u8]) -> Option<usize>
    ensures { IsFirstByte (is_byte3 (byte "\0") (byte "\r") (byte "\n")) text.now result }
{
    memchr3_iter(b'\0', b'\r', b'\n', text).next()
}

// What comes before the first CRLF that no blank follows, and what comes after it, where no NUL and
// no half of a line's end is before it.
// Inlined, since what it gives then keeps to registers.
#[inline(always)]
fn split_folded(text: &[u8]) -> Option<(&[u8], &[u8])>
    ensures sized { IfSome result
        (λ parts. length parts.0.now + 2 + length parts.1.now ≡ length text.now) }
    ensures clean { IfSome result (λ parts. IsCleanUpTo text.now parts.1.now) }
    ensures there { (pieces : RawPieces) (more : List ℕ) → BeginsWithPieces pieces more text.now
        → IsSomeAnd result
        (λ parts. (parts.0.now ≡ pieces_text pieces) × (parts.1.now ≡ more)) }
{
    let mut left = text;
    'folds: loop {
        let n = first_end(left)?;
        let after = rest_after(b"\r\n", rest_from(left, n))?;
        if !starts_with_blank(after) {
            return Some((&text[..text.len() - (after.len() + 2)], after));
        }
        left = after;
    }
}

// The field line that the bytes begin with, and what comes after it.
fn read_line(bytes: &[u8]) -> Option<(LineView<'_>, &[u8])>
    ensures sized { IfSome result (λ parts. length parts.0.name.now + 1
        + length parts.0.raw.now + 2 + length parts.1.now ≡ length bytes.now) }
    ensures clean { IfSome result (λ parts. IsCleanUpTo bytes.now parts.1.now) }
    ensures there { (cut : RawPieces) (more : List ℕ) → BeginsWithCut cut more bytes.now
        → MatchOption result (MakesNoLine cut)
        (λ parts. ReadsLine cut more (field_line_of parts.0) parts.1.now) }
{
    let (name, after_name) = split_name(bytes)?;
    if name.is_empty() {
        return None;
    }
    let (raw, rest) = split_folded(after_name)?;
    Some((LineView { name, raw }, rest))
}

// Where the field line is whose name begins at that offset.
fn span_at(offset: usize, line: LineView<'_>) -> LineSpan
    requires { offset + length line.name.now + 1 + length line.raw.now < 2 ^ 64 }
    ensures { result ≡ span_at offset (field_line_of line.entry) }
{
    let colon = offset + line.name.len();
    LineSpan {
        name: offset,
        colon,
        end: colon + 1 + line.raw.len(),
    }
}

// How many lines are before the empty line, right or wrong.
fn number_of_lines(text: &[u8]) -> usize
    ensures few { result ≤ length text.now }
    ensures there { (lines : List RawPieces) → AreLinesOf text.now lines → result ≡ length lines }
{
    let mut left = text;
    let mut count = 0;
    'lines: loop {
        if begins_with_crlf(left) {
            return count;
        }
        let Some((_, after)) = split_folded(left) else {
            return count;
        };
        left = after;
        count += 1;
    }
}

// Why lines are refused of which so many are field lines and the next one, which is left, is none.
fn fault_from(side: Side, index: usize, left: &[u8]) -> HeadError
    requires { index ≤ MAX_HEAD_LINES }
    ensures { (lines : List RawPieces) → AreLinesOf left.now lines
        → IsFaultFrom side index lines result }
{
    if number_of_lines(left) > MAX_HEAD_LINES - index {
        HeadError::TooManyLines(side)
    } else {
        HeadError::BadLine(side, index)
    }
}

/// Where the field lines are that the rest of the bytes is, an empty line after them.
// Compiled by itself its loop is a fifth faster, since its variables keep to registers.
#[inline(never)]
pub(crate) fn read_lines(
    alloc: Global,
    side: Side,
    bytes: &[u8],
    rest: &[u8],
) -> Result<Vec<LineSpan>, HeadError>
    requires { IsRestOf bytes.now rest.now }
    ensures clean { IfOk result (λ _. IsCleanUpToCrlf rest.now) }
    ensures ok { (lines : List RawPieces) → AreLinesOf rest.now lines
        → IfOk result (λ spans. AreSpansOf bytes.now spans.items rest.now) }
    ensures err { (lines : List RawPieces) → AreLinesOf rest.now lines
        → IfErr result (λ fault. IsLinesFault side lines fault) }
{
    let mut spans = Vec::with_capacity(alloc, 32)?; // most heads have no more lines
    let mut left = rest;
    'lines: loop {
        if begins_with_crlf(left) {
            return Ok(spans);
        }
        if spans.len() == MAX_HEAD_LINES {
            return Err(HeadError::TooManyLines(side));
        }
        let Some((line, after)) = read_line(left) else {
            return Err(fault_from(side, spans.len(), left));
        };
        spans.push(span_at(bytes.len() - left.len(), line))?;
        left = after;
    }
}
