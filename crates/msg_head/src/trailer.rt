//! Reads a trailer section.

ghost use Rattle.std.specs.Prelude.{◌≡◌, ◌≢◌, ℕ, ◌≤◌, ◌↔◌, List, length, IfOk, IfErr, Ok};
ghost use Rattle.byte_grammar.specs.Causes.{AnswersWhere};
ghost use Rattle.msg_head.specs.Lines.{FieldLine};
ghost use Rattle.msg_head.specs.Trailers.{SpellsTrailer, IsTrailerSection, IsTrailerUnfinished};
ghost use Rattle.msg_head.specs.TrailerCauses.{IsTrailerError};
ghost use Rattle.msg_head.specs.TrailerViews.{IsTrailerViewOf};
ghost use Rattle.msg_head.specs.TrailerOutcome.{IfWholeTrailer, IsTrailerUnlessMemory};
ghost use Rattle.msg_head.specs.tools.Texts.{IsClean};
ghost use Rattle.msg_head.specs.tools.TrailerJudged.{IsTrailerSectionView, IsTrailerSectionFault, ExplainsTrailer};

use crate::error::{HeadError, Side};
use crate::limits::MAX_HEAD_BYTES;
use crate::line::{LineView, read_lines};
use crate::named_lines::NamedFieldLines;
use crate::section::{first_fault, trailer_section};
use crate::section_lines::SectionLines;
use crate::slices::prefix_of;
use std::alloc::Global;
use std::marker::Model;

/// A trailer section, borrowed from its bytes. A contract sees it as the bytes and the offsets of
/// the field lines, which fill the bytes.
#[derive(Drop)]
pub struct TrailerView<'m> {
    section: SectionLines<'m>,
}

impl<'m> Model for TrailerView<'m> {
    ghost use Rattle.msg_head.specs.TrailerViews.{TrailerParts, TrailerFills};

    ghost Value = { TrailerParts };

    ghost view = { λ t. t.section };

    ghost invariant = { λ t. TrailerFills t.section };
}

impl<'m> TrailerView<'m> {
    ghost use Rattle.std.specs.Prelude.{◌≡◌, ◌<◌, ◌≤◌, length, filter, take, slice_get, Some};
    ghost use Rattle.std.specs.List.{flat_map};
    ghost use Rattle.msg_head.specs.Lines.{line_text};
    ghost use Rattle.msg_head.specs.Names.{has_name};
    ghost use Rattle.msg_head.specs.Trailers.{trailer_text};
    ghost use Rattle.msg_head.specs.Views.{field_line_of};
    ghost use Rattle.msg_head.specs.TrailerViews.{TrailerFills, trailer_lines_of};

    // The view of a trailer section of these field lines.
    fn new(section: SectionLines<'m>) -> TrailerView<'m>
        requires { TrailerFills section }
        ensures { result ≡ section.entry }
    {
        TrailerView { section }
    }

    /// The bytes of the section, which are its text, the empty line at its end included.
    pub fn bytes(&self) -> &'m [u8]
        ensures bytes { result.now ≡ self.now.bytes }
        ensures len { length result.now ≡ length (trailer_text (trailer_lines_of self.now)) }
    {
        self.section.bytes()
    }

    /// How many field lines there are.
    pub fn line_count(&self) -> usize
        ensures count { result ≡ length self.now.spans }
        ensures fills { TrailerFills self.now }
    {
        self.section.count()
    }

    /// The field line with that index in their order.
    pub fn line(&self, index: usize) -> LineView<'m>
        requires { index < length self.now.spans }
        ensures { slice_get (trailer_lines_of self.now) index ≡ Some (field_line_of result) }
    {
        self.section.line(index)
    }

    /// The offset of the field line with that index, or of the empty line where it is their count.
    pub fn line_offset(&self, index: usize) -> usize
        requires { index ≤ length self.now.spans }
        ensures { result ≡ length (flat_map line_text (take index (trailer_lines_of self.now))) }
    {
        self.section.line_offset(index)
    }

    /// The field lines that have the name, which is in lower case, in order, found by halving.
    pub fn lines_named(&self, name: &[u8]) -> NamedFieldLines<'_, 'm>
        ensures { result ≡ filter (has_name name.now) (trailer_lines_of self.now) }
    {
        self.section.lines_named(name)
    }
}

/// What the bytes begin with.
#[derive(Drop)]
pub enum TrailerRead<'m> {
    /// A trailer section, and how many bytes spell it, the empty line at its end included.
    Whole(TrailerView<'m>, usize),
    /// No end of a trailer section is there yet, and there is room for more bytes.
    Partial,
}

// The field lines that the section spells, or its fault where it has no naked end.
fn read_section<'m>(alloc: Global, section: &'m [u8]) -> Result<TrailerView<'m>, HeadError>
    requires is { IsTrailerSection section.now section.now }
    requires short { length section.now ≤ MAX_HEAD_BYTES }
    ensures ok { IfOk result (λ view. IsTrailerSectionView view section.now) }
    ensures err { IsClean section.now
        → IfErr result (λ fault. IsTrailerSectionFault section.now fault) }
{
    let spans = read_lines(alloc, Side::Trailer, section, section)?;
    let lines = SectionLines::new(alloc, section, spans)?;
    Ok(TrailerView::new(lines))
}

// The answer to bytes, by its cause.
fn judge<'m>(alloc: Global, bytes: &'m [u8]) -> Result<TrailerRead<'m>, HeadError>
    ensures explains { ExplainsTrailer bytes.now result }
    ensures partial { IsTrailerUnfinished bytes.now → result ≡ Ok TrailerRead.Partial }
{
    let Some(section) = trailer_section(prefix_of(bytes, MAX_HEAD_BYTES)) else {
        if bytes.len() < MAX_HEAD_BYTES {
            return Ok(TrailerRead::Partial);
        }
        return Err(HeadError::TooLong(Side::Trailer));
    };
    match read_section(alloc, section) {
        Ok(view) => Ok(TrailerRead::Whole(view, section.len())),
        Err(fault) => Err(first_fault(section, fault)),
    }
}

/// Reads the trailer section that the bytes begin with, which are right after the last chunk's
/// line (RFC 9112 section 7.1.2).
///
/// The section is CRLF alone where the bytes begin with it; else it ends at the first CRLF CRLF. Of
/// several faults the first in the order of `HeadError` is answered, with the side
/// `Side::Trailer`. `BadStart` isn't among them.
pub fn read_trailer<'m>(alloc: Global, bytes: &'m [u8]) -> Result<TrailerRead<'m>, HeadError>
    ensures whole { IfWholeTrailer result (λ view used. IsTrailerViewOf bytes.now view used) }
    ensures found { (lines : List FieldLine) (used : ℕ) → SpellsTrailer lines used bytes.now
        → IsTrailerUnlessMemory result lines used }
    ensures partial { (result ≡ Ok TrailerRead.Partial) ↔ IsTrailerUnfinished bytes.now }

    // The first fault whose cause holds is answered, and no other.
    ensures fault { (fault : HeadError) → fault ≢ HeadError.Memory
        → AnswersWhere HeadError.Memory result fault (IsTrailerError bytes.now fault) }
{
    judge(alloc, bytes)
}
