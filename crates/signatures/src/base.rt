//! The signature base, fed or as a text.

ghost use Rattle.std.specs.Prelude.{◌≡◌, ◌<◌, ◌≤◌, ◌+◌, ◌-◌, ◌==◌, ◌++◌, [], ℕ, Some, List, length, take, slice_get, slice_index_or, IfOk};
ghost use Rattle.std.specs.List.{flat_map, zip};
ghost use Rattle.component_ids.specs.Identifiers.{id_text};
ghost use Rattle.component_ids.specs.declared.id.ComponentId.{ComponentId};
ghost use Rattle.signatures.specs.SignatureBase.{component_line, signature_base};
ghost use Rattle.signatures.specs.tools.Feed.{LacksEnd, line_begin};

use crate::buffer::{ByteBuffer, ByteCount};
use component_values::Prepared;
use sfv_text::{Absorb, Memory, Text};
use std::alloc::Global;

/// So many bytes are fed as one piece. How a line begins mostly has fewer.
const PIECE_SIZE: usize = 64;

/// Writes the bytes at the offset, and answers the offset after them.
fn write_at(at: usize, bytes: &[u8], piece: &mut [u8; PIECE_SIZE]) -> usize
    requires { at + length bytes.now ≤ PIECE_SIZE }
    ensures end { result ≡ at + length bytes.now }
    ensures bytes { take result piece.new ≡ take at piece.old ++ bytes.now }
{
    let end = at + bytes.len();
    piece[at..end].copy_from_slice(bytes);
    end
}

/// Feeds how a line begins as one piece.
fn feed_short_begin<A: Absorb>(is_first: bool, id: &[u8], into: &mut A)
    requires { length id.now ≤ PIECE_SIZE - 3 }
    ensures { (text : List ℕ) → A.absorbed into.old text
        → A.absorbed into.new (text ++ line_begin is_first id.now) }
{
    let mut piece = [b'\n'; PIECE_SIZE];
    let end = write_at(1, id, &mut piece);
    let end = write_at(end, b": ", &mut piece);
    let from = if is_first { 1 } else { 0 };
    into.absorb(&piece[from..end]);
}

/// Feeds how a line begins piece by piece.
fn feed_long_begin<A: Absorb>(is_first: bool, id: &[u8], into: &mut A)
    ensures { (text : List ℕ) → A.absorbed into.old text
        → A.absorbed into.new (text ++ line_begin is_first id.now) }
{
    if !is_first {
        into.absorb(b"\n");
    }
    into.absorb(id);
    into.absorb(b": ");
}

/// Feeds the end of the line before, where there is one, an identifier, a colon and a space.
fn feed_begin<A: Absorb>(is_first: bool, id: &[u8], into: &mut A)
    ensures { (text : List ℕ) → A.absorbed into.old text
        → A.absorbed into.new (text ++ line_begin is_first id.now) }
{
    if id.len() <= PIECE_SIZE - 3 {
        feed_short_begin(is_first, id, into);
    } else {
        feed_long_begin(is_first, id, into);
    }
}

/// Feeds the line of one component without its end, after the end of the line before.
fn feed_line<A: Absorb>(prepared: &Prepared<'_, '_>, index: usize, into: &mut A)
    requires id { index < length prepared.now.params.ids }
    requires value { index < length prepared.now.values }
    ensures { (id : ComponentId) → slice_get prepared.now.params.ids index ≡ Some id
        → (text : List ℕ) → A.absorbed into.old text → A.absorbed into.new
        (text ++ (line_begin (index == 0) (id_text id)
        ++ slice_index_or prepared.now.values index [])) }
{
    feed_begin(index == 0, prepared.id_text(index), into);
    prepared.feed(index, into);
}

/// Feeds the lines of the components, in order, without the end of the last.
fn feed_lines<A: Absorb>(prepared: &Prepared<'_, '_>, into: &mut A)
    ensures { (text : List ℕ) → A.absorbed into.old text
        → LacksEnd (A.absorbed into.new) (length prepared.now.values == 0)
        (text ++ flat_map component_line (zip prepared.now.params.ids prepared.now.values)) }
{
    for index in 0..prepared.len() {
        feed_line(prepared, index, into);
    }
}

/// Feeds the signature base of the prepared components (RFC 9421 section 2.5). It takes no memory
/// and can't fail.
pub fn feed_base<A: Absorb>(prepared: &Prepared<'_, '_>, into: &mut A)
    ensures { (text : List ℕ) → A.absorbed into.old text → A.absorbed into.new
        (text ++ signature_base prepared.now.params prepared.now.values) }
{
    feed_lines(prepared, into);
    feed_begin(prepared.is_empty(), b"\"@signature-params\"", into);
    into.absorb(prepared.params_text());
}

/// The signature base of the prepared components as a text (RFC 9421 section 2.5).
pub fn base_bytes(alloc: Global, prepared: &Prepared<'_, '_>) -> Result<Text, Memory>
    ensures { IfOk result (λ base. base
        ≡ signature_base prepared.now.params prepared.now.values) }
{
    let mut count = ByteCount::new();
    feed_base(prepared, &mut count);
    let mut buffer = ByteBuffer::new(alloc, count.total())?;
    feed_base(prepared, &mut buffer);
    buffer.finish()
}
