//! Keys, parameters and Items (RFC 9651 sections 3.1.2 and 3.3).

ghost use Rattle.std.specs.Prelude.{◌≤◌, length};
ghost use Rattle.sfv_read.specs.tools.Gives.{GivesUnlessMemory, UnlessStopped};
ghost use Rattle.sfv_read.specs.tools.ItemWalk.{item_read, equals_read, value_read, key_read, parameter_read, next_parameter_read, parameters_read};

use crate::bare::read_bare_item;
use crate::class::SfClass;
use crate::error::PartError;
use byte_grammar::{Byte, read_all, read_byte, read_word, starts_with};
use sfv_text::{BareItem, Item, Pair, Params, Text};
use std::alloc::Global;

/// Reads a bare item with parameters.
#[tactic(auto, unfolding(crate::specs::tools::ItemWalk::item_read))]
pub fn read_item_text(alloc: Global, bytes: &[u8]) -> Result<(Item, &[u8]), PartError>
    ensures gives { GivesUnlessMemory (λ x. (x.0, x.1.now)) result (item_read bytes.now) }
    ensures some { UnlessStopped result (1 ≤ length bytes.now) }
{
    let (bare, rest) = read_bare_item(alloc, bytes)?;
    let (params, rest) = read_parameters(alloc, rest)?;
    Ok((Item { bare, params }, rest))
}

/// Reads parameters one after the other. A repeated key keeps its first place and has its last
/// value.
pub fn read_parameters(alloc: Global, bytes: &[u8]) -> Result<(Params, &[u8]), PartError>
    ensures { GivesUnlessMemory (λ x. (x.0, x.1.now)) result (parameters_read bytes.now) }
{
    let mut params = Params::new(alloc);
    let mut rest = bytes;
    'params: loop {
        let (next, after) = read_next_parameter(alloc, rest)?;
        match next {
            None => return Ok((params, after)),
            Some(param) => {
                params.put(param.key, param.value)?;
                rest = after;
            }
        }
    }
}

/// Reads a parameter where a semicolon comes.
#[tactic(auto, unfolding(crate::specs::tools::ItemWalk::next_parameter_read, byte_grammar::specs::tools::Walks::optional_read))]
fn read_next_parameter(
    alloc: Global,
    bytes: &[u8],
) -> Result<(Option<Pair<BareItem>>, &[u8]), PartError>
    ensures { GivesUnlessMemory (λ x. (x.0, x.1.now)) result (next_parameter_read bytes.now) }
{
    if !starts_with(Byte(b';'), bytes) {
        return Ok((None, bytes));
    }
    let (param, rest) = read_parameter(alloc, bytes)?;
    Ok((Some(param), rest))
}

/// Reads a semicolon, spaces, a key and its value.
#[tactic(auto, unfolding(crate::specs::tools::ItemWalk::parameter_read))]
fn read_parameter(alloc: Global, bytes: &[u8]) -> Result<(Pair<BareItem>, &[u8]), PartError>
    ensures { GivesUnlessMemory (λ x. (x.0, x.1.now)) result (parameter_read bytes.now) }
{
    let (_, rest) = read_byte(Byte(b';'), bytes)?;
    let (_, rest) = read_all(Byte(b' '), rest);
    let (key, rest) = read_key(alloc, rest)?;
    let (value, rest) = read_value(alloc, rest)?;
    Ok((Pair { key, value }, rest))
}

#[tactic(auto, unfolding(crate::specs::tools::ItemWalk::key_read))]
pub fn read_key(alloc: Global, bytes: &[u8]) -> Result<(Text, &[u8]), PartError>
    ensures { GivesUnlessMemory (λ x. (x.0, x.1.now)) result (key_read bytes.now) }
{
    let (key, rest) = read_word(SfClass::KeyFirst, SfClass::KeyRest, bytes)?;
    Ok((Text::from_bytes(alloc, key)?, rest))
}

/// Reads `=` and a bare item, or nothing for true.
#[tactic(auto, unfolding(crate::specs::tools::ItemWalk::value_read, byte_grammar::specs::tools::Walks::optional_read))]
fn read_value(alloc: Global, bytes: &[u8]) -> Result<(BareItem, &[u8]), PartError>
    ensures { GivesUnlessMemory (λ x. (x.0, x.1.now)) result (value_read bytes.now) }
{
    if !starts_with(Byte(b'='), bytes) {
        return Ok((BareItem::Bool(true), bytes));
    }
    read_equals(alloc, bytes)
}

#[tactic(auto, unfolding(crate::specs::tools::ItemWalk::equals_read))]
fn read_equals(alloc: Global, bytes: &[u8]) -> Result<(BareItem, &[u8]), PartError>
    ensures { GivesUnlessMemory (λ x. (x.0, x.1.now)) result (equals_read bytes.now) }
{
    let (_, rest) = read_byte(Byte(b'='), bytes)?;
    read_bare_item(alloc, rest)
}
