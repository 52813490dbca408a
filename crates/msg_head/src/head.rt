//! Reads a head.

ghost use Rattle.std.specs.Prelude.{◌≡◌, ◌≢◌, ℕ, ◌≤◌, ◌↔◌, length, IfOk, IfErr, Ok};
ghost use Rattle.msg_head.specs.Cuts.{IsSection};
ghost use Rattle.msg_head.specs.Heads.{Head, SpellsHead, IsUnfinished};
ghost use Rattle.byte_grammar.specs.Causes.{AnswersWhere};
ghost use Rattle.msg_head.specs.Causes.{IsHeadError};
ghost use Rattle.msg_head.specs.Views.{IsViewOf};
ghost use Rattle.msg_head.specs.Outcome.{IfWholeHead, IsHeadUnlessMemory};
ghost use Rattle.msg_head.specs.tools.Texts.{IsClean};
ghost use Rattle.msg_head.specs.tools.Judged.{IsSectionView, IsSectionFault, ExplainsHead};

use crate::error::{HeadError, Side};
use crate::limits::MAX_HEAD_BYTES;
use crate::line::read_lines;
use crate::section::{first_fault, head_section};
use crate::section_lines::SectionLines;
use crate::slices::prefix_of;
use crate::start::read_start;
use crate::view::HeadView;
use std::alloc::Global;

/// What the bytes begin with.
#[derive(Drop)]
pub enum HeadRead<'m> {
    /// A head, and how many bytes spell it, the empty line at its end included.
    Whole(HeadView<'m>, usize),
    /// No end of a head is there yet, and there is room for more bytes.
    Partial,
}

// The head that the section spells, or its fault where it has no naked end.
// Inlined, as `judge` is, since a view is large and isn't moved then.
#[inline(always)]
fn read_section<'m>(alloc: Global, section: &'m [u8]) -> Result<HeadView<'m>, HeadError>
    requires is { IsSection section.now section.now }
    requires short { length section.now ≤ MAX_HEAD_BYTES }
    ensures ok { IfOk result (λ view. IsSectionView view section.now) }
    ensures err { IsClean section.now → IfErr result (λ fault. IsSectionFault section.now fault) }
{
    let Some((start, rest)) = read_start(section) else {
        return Err(HeadError::BadStart);
    };
    let spans = read_lines(alloc, Side::Header, section, rest)?;
    let lines = SectionLines::new(alloc, section, spans)?;
    Ok(HeadView::new(start, lines))
}

// The answer to bytes, by its cause.
#[inline(always)]
fn judge<'m>(alloc: Global, bytes: &'m [u8]) -> Result<HeadRead<'m>, HeadError>
    ensures explains { ExplainsHead bytes.now result }
    ensures partial { IsUnfinished bytes.now → result ≡ Ok HeadRead.Partial }
{
    let Some(section) = head_section(prefix_of(bytes, MAX_HEAD_BYTES)) else {
        if bytes.len() < MAX_HEAD_BYTES {
            return Ok(HeadRead::Partial);
        }
        return Err(HeadError::TooLong(Side::Header));
    };
    match read_section(alloc, section) {
        Ok(view) => Ok(HeadRead::Whole(view, section.len())),
        Err(fault) => Err(first_fault(section, fault)),
    }
}

/// Reads the head that the bytes begin with (RFC 9112 section 2.1).
///
/// Of several faults the first in the order of `HeadError` is answered.
pub fn read_head<'m>(alloc: Global, bytes: &'m [u8]) -> Result<HeadRead<'m>, HeadError>
    ensures whole { IfWholeHead result (λ view used. IsViewOf bytes.now view used) }
    ensures found { (head : Head) (used : ℕ) → SpellsHead head used bytes.now
        → IsHeadUnlessMemory result head used }
    ensures partial { (result ≡ Ok HeadRead.Partial) ↔ IsUnfinished bytes.now }

    // The first fault whose cause holds is answered, and no other.
    ensures fault { (fault : HeadError) → fault ≢ HeadError.Memory
        → AnswersWhere HeadError.Memory result fault (IsHeadError bytes.now fault) }
{
    judge(alloc, bytes)
}
