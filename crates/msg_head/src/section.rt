//! Where a head or a trailer section ends, and the ends in it that are none.

ghost use Rattle.std.specs.Prelude.{IfSome, IfNone};
ghost use Rattle.msg_head.specs.Cuts.{HasNoEnd, IsSection, IsFirstNakedEnd};
ghost use Rattle.msg_head.specs.Trailers.{IsTrailerSection, after_chunks};
ghost use Rattle.msg_head.specs.tools.Texts.{EndsWithLf, IsClean};
ghost use Rattle.msg_head.specs.tools.Judged.{IsFirstFault};

use crate::error::HeadError;
use crate::slices::{begins_with_crlf, rest_from};
use byte_grammar::rest_after;
use memchr::{memchr3, memmem};

/// The bytes up to and with the first CRLF CRLF.
pub(crate) fn head_section(bytes: &[u8]) -> Option<&[u8]>
    ensures some { IfSome result (λ section. IsSection bytes.now section.now) }
    ensures none { IfNone result (HasNoEnd bytes.now) }
{
    // each line ends with CRLF, but only before the empty line CR comes after LF
    let mut from = 0;
    'ends: loop {
        let at = from + memmem::find(rest_from(bytes, from), b"\n\r\n")?;
        if at > 0 && bytes[at - 1] == b'\r' {
            return Some(&bytes[..at + 3]);
        }
        from = at + 1;
    }
}

/// The bytes up to and with the end of the trailer section that they begin with.
pub(crate) fn trailer_section(bytes: &[u8]) -> Option<&[u8]>
    ensures some { IfSome result (λ section. IsTrailerSection bytes.now section.now) }
    ensures none { IfNone result (HasNoEnd (after_chunks bytes.now)) }
{
    if begins_with_crlf(bytes) {
        return Some(&bytes[..2]);
    }
    head_section(bytes)
}

/// Where the first NUL is, or the first CR without LF after it or LF without CR before it.
pub(crate) fn first_naked_end(section: &[u8]) -> Option<usize>
    requires { EndsWithLf section.now }
    ensures some { IfSome result (λ offset. IsFirstNakedEnd section.now offset) }
    ensures none { IfNone result (IsClean section.now) }
{
    let mut left = section;
    'pieces: loop {
        let n = memchr3(b'\0', b'\r', b'\n', left)?;
        let Some(after) = rest_after(b"\r\n", rest_from(left, n)) else {
            return Some(section.len() - left.len() + n);
        };
        left = after;
    }
}

/// The naked end of a refused section, which is judged first, or the fault where there is none.
pub(crate) fn first_fault(section: &[u8], fault: HeadError) -> HeadError
    requires { EndsWithLf section.now }
    ensures { IsFirstFault section.now fault result }
{
    match first_naked_end(section) {
        Some(offset) => HeadError::NakedEnd(offset),
        None => fault,
    }
}
