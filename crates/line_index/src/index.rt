//! The order of field lines by name.

ghost use Rattle.std.specs.Prelude.{◌≡◌, length, map, filter, replicate, IfOk};
ghost use Rattle.std.specs.List.{range_with_len};
ghost use Rattle.std.specs.Str.{str_to_ascii_lowercase};
ghost use Rattle.line_index.specs.tools.Index.{first_bytes, HasFirstPart, after_first, name_by, text_cmp, name_cmp, rest_of_name, tied_cmp, entry_cmp, entry_of, is_key_below, is_named, is_rest_named, IsEntry, IsIndexOf, IsRestFrom};

use crate::name::lowers_to;
use crate::span::{LineSpan, name_of};
use std::alloc::{AllocError, Global};
use std::cmp::Ordering;

/// What the index has of a field line. The first bytes of the name decide most comparisons.
#[derive(Clone, Copy)]
pub(crate) struct IndexEntry {
    /// The first sixteen bytes of the name in lower case, as a number.
    first_bytes: u128,
    /// How many bytes the name has.
    name_len: usize,
    /// The index of the line among the field lines.
    pub(crate) line: usize,
}

// Copies the first sixteen bytes of the name, and leaves NUL for each that is missing.
fn copy_first(name: &[u8], bytes: &mut [u8; 16])
    requires { bytes.old ≡ replicate 16 0 }
    ensures { HasFirstPart name.now bytes.new }
{
    match name.first_chunk() {
        Some(first) => *bytes = *first,
        None => bytes[..name.len()].copy_from_slice(name),
    }
}

// The first sixteen bytes of the name as a number.
fn first_bytes(name: &[u8]) -> u128
    ensures { result ≡ first_bytes name.now }
{
    let mut bytes = [b'\0'; 16];
    copy_first(name, &mut bytes);
    u128::from_be_bytes(bytes)
}

// The same of the name in lower case. Inlined, since it is called for each line.
#[inline(always)]
fn lowered_first_bytes(name: &[u8]) -> u128
    ensures { result ≡ first_bytes (str_to_ascii_lowercase name.now) }
{
    let mut bytes = [b'\0'; 16];
    copy_first(name, &mut bytes);
    bytes.make_ascii_lowercase();
    u128::from_be_bytes(bytes)
}

// What comes after the first sixteen bytes of the name.
fn after_first(name: &[u8]) -> &[u8]
    ensures { result.now ≡ after_first name.now }
{
    name.get(16..).unwrap_or(&[])
}

// How two texts are ordered, in which case doesn't count.
fn compare_texts(one: &[u8], other: &[u8]) -> Ordering
    ensures { result
        ≡ text_cmp (str_to_ascii_lowercase one.now) (str_to_ascii_lowercase other.now) }
{
    let mut ones = one;
    let mut others = other;
    'same: loop {
        let Some((first, ones_left)) = ones.split_first() else {
            return if others.is_empty() {
                Ordering::Equal
            } else {
                Ordering::Less
            };
        };
        let Some((second, others_left)) = others.split_first() else {
            return Ordering::Greater;
        };
        // in the same case most bytes are the same
        if *first != *second {
            let (first, second) = (first.to_ascii_lowercase(), second.to_ascii_lowercase());
            if first != second {
                return first.cmp(&second);
            }
        }
        ones = ones_left;
        others = others_left;
    }
}

// How two names of equal first bytes are ordered, in which case doesn't count.
fn compare_names(one: &[u8], other: &[u8]) -> Ordering
    ensures { result
        ≡ name_cmp (str_to_ascii_lowercase one.now) (str_to_ascii_lowercase other.now) }
{
    compare_texts(after_first(one), after_first(other)).then(one.len().cmp(&other.len()))
}

// Whether the name written so is the name, where their first bytes are the same.
fn is_rest_named(written: &[u8], name: &[u8]) -> bool
    ensures { result ≡ is_rest_named (str_to_ascii_lowercase written.now) name.now }
{
    written.len() == name.len() && lowers_to(after_first(written), after_first(name))
}

// The name of the line with the index; empty where there is no such line.
fn name_at<'m>(bytes: &'m [u8], spans: &[LineSpan], index: usize) -> &'m [u8]
    ensures { result.now ≡ name_by bytes.now spans.now index }
{
    match spans.get(index) {
        Some(span) => name_of(bytes, *span),
        None => &[],
    }
}

// The entry of the line with the index.
fn entry_of(bytes: &[u8], spans: &[LineSpan], line: usize) -> IndexEntry
    ensures { result ≡ entry_of bytes.now spans.now line }
{
    let name = name_at(bytes, spans, line);
    IndexEntry {
        first_bytes: lowered_first_bytes(name),
        name_len: name.len(),
        line,
    }
}

// What comes after the first sixteen bytes of the name of the entry's line.
fn rest_of_name<'m>(bytes: &'m [u8], spans: &[LineSpan], entry: IndexEntry) -> &'m [u8]
    ensures { str_to_ascii_lowercase result.now ≡ rest_of_name bytes.now spans.now entry }
{
    if entry.name_len <= 16 {
        return &[];
    }
    after_first(name_at(bytes, spans, entry.line))
}

// How two entries of equal first bytes are ordered, where more bytes of the names may count.
// Compiled by itself, since it is called seldom.
#[inline(never)]
fn compare_long(bytes: &[u8], spans: &[LineSpan], one: IndexEntry, other: IndexEntry) -> Ordering
    ensures { result ≡ tied_cmp bytes.now spans.now one other }
{
    compare_texts(
        rest_of_name(bytes, spans, one),
        rest_of_name(bytes, spans, other),
    )
    .then(one.name_len.cmp(&other.name_len))
    .then(one.line.cmp(&other.line))
}

// How two entries are ordered. The sort spends its time here, and tests that return at once compile
// to fewer instructions than orderings that are joined.
fn compare_entries(bytes: &[u8], spans: &[LineSpan], one: IndexEntry, other: IndexEntry) -> Ordering
    ensures { result ≡ entry_cmp bytes.now spans.now one other }
{
    if one.first_bytes < other.first_bytes {
        return Ordering::Less;
    }
    if other.first_bytes < one.first_bytes {
        return Ordering::Greater;
    }
    if one.name_len > 16 || other.name_len > 16 {
        return compare_long(bytes, spans, one, other);
    }
    if one.name_len != other.name_len {
        return one.name_len.cmp(&other.name_len);
    }
    one.line.cmp(&other.line)
}

// The entries of the lines, in order of the lines.
fn entries_of(
    alloc: Global,
    bytes: &[u8],
    spans: &[LineSpan],
) -> Result<Vec<IndexEntry>, AllocError>
    ensures { IfOk result (λ entries. entries.items
        ≡ map (entry_of bytes.now spans.now) (range_with_len 0 (length spans.now))) }
{
    let mut entries = Vec::with_capacity(alloc, spans.len())?;
    for line in 0..spans.len() {
        entries.push(entry_of(bytes, spans, line))?;
    }
    Ok(entries)
}

/// The entries of the lines, in order of their names in lower case. Those of one name keep their
/// order.
pub(crate) fn index_of(
    alloc: Global,
    bytes: &[u8],
    spans: &[LineSpan],
) -> Result<Vec<IndexEntry>, AllocError>
    ensures { IfOk result (λ index. IsIndexOf bytes.now spans.now index.items) }
{
    let mut index = entries_of(alloc, bytes, spans)?;
    index.sort_unstable_by(|one, other| compare_entries(bytes, spans, *one, *other));
    Ok(index)
}

// Whether the name of the entry's line comes before the name, whose first bytes are these.
fn is_below(bytes: &[u8], spans: &[LineSpan], name: &[u8], first: u128, entry: IndexEntry) -> bool
    ensures { result
        ≡ is_key_below bytes.now spans.now (first, str_to_ascii_lowercase name.now) entry }
{
    entry.first_bytes < first
        || (entry.first_bytes == first
            && compare_names(name_at(bytes, spans, entry.line), name) == Ordering::Less)
}

// Whether the entry's line has the name, whose first bytes as they are written are these.
fn is_named(bytes: &[u8], spans: &[LineSpan], name: &[u8], first: u128, entry: IndexEntry) -> bool
    requires right { IsEntry bytes.now spans.now entry }
    requires first { first ≡ first_bytes name.now }
    ensures { result ≡ is_named bytes.now spans.now name.now entry }
{
    entry.first_bytes == first && is_rest_named(name_at(bytes, spans, entry.line), name)
}

// The entries from the first on whose line's name doesn't come before the name. Where no other name
// begins as it does, the first bytes decide. They are those of the name as it is written: where one
// is in upper case, no line has the name, wherever it is looked for.
fn rest_from_name<'h>(
    bytes: &[u8],
    spans: &[LineSpan],
    index: &'h [IndexEntry],
    name: &[u8],
    first: u128,
) -> &'h [IndexEntry]
    requires right { IsIndexOf bytes.now spans.now index.now }
    requires first { first ≡ first_bytes name.now }
    ensures { IsRestFrom bytes.now spans.now name.now index.now result.now }
{
    let begin = index.partition_point(|entry| entry.first_bytes < first);
    match index.get(begin) {
        Some(entry) if is_below(bytes, spans, name, first, *entry) => {
            let begin = index.partition_point(|entry| is_below(bytes, spans, name, first, *entry));
            index.split_at(begin).1
        }
        _ => index.split_at(begin).1,
    }
}

/// The entries of the lines that have the name, in order of the lines.
pub(crate) fn named_part<'h>(
    bytes: &[u8],
    spans: &[LineSpan],
    index: &'h [IndexEntry],
    name: &[u8],
) -> &'h [IndexEntry]
    requires { IsIndexOf bytes.now spans.now index.now }
    ensures { result.now ≡ filter (is_named bytes.now spans.now name.now) index.now }
{
    let first = first_bytes(name);
    let rest = rest_from_name(bytes, spans, index, name, first);
    for (count, entry) in rest.iter().enumerate() {
        if !is_named(bytes, spans, name, first, *entry) {
            return rest.split_at(count).0;
        }
    }
    rest
}
