//! Bare items (RFC 9651 section 3.3).

ghost use Rattle.std.specs.Prelude.{◌≡◌, ◌≤◌, length, IfSome};
ghost use Rattle.byte_grammar.specs.Gives.{Gives};
ghost use Rattle.byte_grammar.specs.tools.Walks.{first_kind};
ghost use Rattle.sfv_read.specs.tools.Gives.{GivesUnlessMemory, UnlessStopped};
ghost use Rattle.sfv_read.specs.tools.BareWalk.{kind_of_bare_item, bare_item_by, bare_item_read, boolean_read};
ghost use Rattle.sfv_read.specs.declared.bare.BareKind.{BareKind};

use crate::byte_sequence::read_byte_sequence;
use crate::class::SfClass;
use crate::display_string::read_display_string;
use crate::error::PartError;
use crate::number::{read_date, read_number};
use crate::string::read_string;
use byte_grammar::{Byte, ByteClass, Class, Left, read_byte, read_word};
use sfv_text::{BareItem, Text};
use std::alloc::Global;

/// What the first byte of a bare item says that it is.
#[derive(Clone, Copy)]
pub enum BareKind {
    /// An Integer or a Decimal.
    Number,
    String,
    Token,
    ByteSequence,
    Boolean,
    Date,
    DisplayString,
}

/// Reads a bare item, by its first byte.
#[tactic(auto, unfolding(crate::specs::tools::BareWalk::bare_item_read, byte_grammar::specs::tools::Walks::pick_read))]
pub fn read_bare_item(alloc: Global, bytes: &[u8]) -> Result<(BareItem, &[u8]), PartError>
    ensures gives { GivesUnlessMemory (λ x. (x.0, x.1.now)) result (bare_item_read bytes.now) }
    ensures some { UnlessStopped result (1 ≤ length bytes.now) }
{
    match first_kind(bytes) {
        None => Err(PartError::At(bytes.len())),
        Some(BareKind::Number) => Ok(read_number(bytes)?),
        Some(BareKind::String) => read_string_item(alloc, bytes),
        Some(BareKind::Token) => read_token(alloc, bytes),
        Some(BareKind::ByteSequence) => read_bytes_item(alloc, bytes),
        Some(BareKind::Boolean) => Ok(read_boolean(bytes)?),
        Some(BareKind::Date) => Ok(read_date(bytes)?),
        Some(BareKind::DisplayString) => read_display_item(alloc, bytes),
    }
}

fn read_string_item(alloc: Global, bytes: &[u8]) -> Result<(BareItem, &[u8]), PartError>
    ensures { GivesUnlessMemory (λ x. (x.0, x.1.now)) result
        (bare_item_by BareKind.String bytes.now) }
{
    let (text, rest) = read_string(alloc, bytes)?;
    Ok((BareItem::Str(text), rest))
}

fn read_token(alloc: Global, bytes: &[u8]) -> Result<(BareItem, &[u8]), PartError>
    ensures { GivesUnlessMemory (λ x. (x.0, x.1.now)) result
        (bare_item_by BareKind.Token bytes.now) }
{
    let (token, rest) = read_word(SfClass::TokenFirst, SfClass::TokenRest, bytes)?;
    Ok((BareItem::Token(Text::from_bytes(alloc, token)?), rest))
}

fn read_bytes_item(alloc: Global, bytes: &[u8]) -> Result<(BareItem, &[u8]), PartError>
    ensures { GivesUnlessMemory (λ x. (x.0, x.1.now)) result
        (bare_item_by BareKind.ByteSequence bytes.now) }
{
    let (text, rest) = read_byte_sequence(alloc, bytes)?;
    Ok((BareItem::Bytes(text), rest))
}

fn read_display_item(alloc: Global, bytes: &[u8]) -> Result<(BareItem, &[u8]), PartError>
    ensures { GivesUnlessMemory (λ x. (x.0, x.1.now)) result
        (bare_item_by BareKind.DisplayString bytes.now) }
{
    let (text, rest) = read_display_string(alloc, bytes)?;
    Ok((BareItem::Display(text), rest))
}

/// Reads `?1` or `?0`.
#[tactic(auto, unfolding(crate::specs::tools::BareWalk::boolean_read))]
fn read_boolean(bytes: &[u8]) -> Result<(BareItem, &[u8]), Left>
    ensures { Gives (λ x. (x.0, x.1.now)) result (boolean_read bytes.now) }
{
    let (_, rest) = read_byte(Byte(b'?'), bytes)?;
    let (bit, rest) = read_byte(SfClass::Bit, rest)?;
    Ok((BareItem::Bool(bit == b'1'), rest))
}

fn first_kind(bytes: &[u8]) -> Option<BareKind>
    ensures kind { result ≡ first_kind kind_of_bare_item bytes.now }
    ensures some { IfSome result (λ _. 1 ≤ length bytes.now) }
{
    match bytes.split_first() {
        None => None,
        Some((first, _)) => kind_of_bare_item(*first),
    }
}

fn kind_of_bare_item(byte: u8) -> Option<BareKind>
    ensures { result ≡ kind_of_bare_item byte }
{
    if Class::Digit.allows(byte) {
        return Some(BareKind::Number);
    }
    if byte == b'-' {
        return Some(BareKind::Number);
    }
    if byte == b'"' {
        return Some(BareKind::String);
    }
    if SfClass::TokenFirst.allows(byte) {
        return Some(BareKind::Token);
    }
    if byte == b':' {
        return Some(BareKind::ByteSequence);
    }
    if byte == b'?' {
        return Some(BareKind::Boolean);
    }
    if byte == b'@' {
        return Some(BareKind::Date);
    }
    if byte == b'%' {
        return Some(BareKind::DisplayString);
    }
    None
}
