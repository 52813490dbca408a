//! Where a field line is.

ghost use Rattle.std.specs.Prelude.{◌≡◌};
ghost use Rattle.std.specs.List.{slice_range};
ghost use Rattle.line_index.specs.Spans.{span_name};

/// Where a field line is in the bytes of its message, in offsets from their first.
#[derive(Clone, Copy, PartialEq, Eq)]
pub struct LineSpan {
    /// The offset of the name's first byte.
    pub name: usize,
    /// The offset of the colon.
    pub colon: usize,
    /// The offset of the first byte after the raw value.
    pub end: usize,
}

// The bytes from the one offset up to the other, as many of them as there are.
fn part_of(bytes: &[u8], begin: usize, end: usize) -> &[u8]
    ensures { result.now ≡ slice_range bytes.now begin end }
{
    let end = end.min(bytes.len());
    if end < begin {
        return &[];
    }
    &bytes[begin..end]
}

/// The name of the field line at these offsets.
pub(crate) fn name_of(bytes: &[u8], span: LineSpan) -> &[u8]
    ensures { result.now ≡ span_name bytes.now span }
{
    part_of(bytes, span.name, span.colon)
}
