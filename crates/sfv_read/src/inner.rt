//! Inner Lists (RFC 9651 section 3.1.1).

ghost use Rattle.std.specs.Prelude.{◌≤◌, length};
ghost use Rattle.byte_grammar.specs.Gives.{Gives};
ghost use Rattle.byte_grammar.specs.tools.Walks.{turns_read, with_prefix};
ghost use Rattle.sfv_read.specs.tools.Gives.{GivesUnlessMemory, UnlessStopped};
ghost use Rattle.sfv_read.specs.tools.InnerWalk.{close_read, some_item_read, item_or_close_read, next_item_read, items_read, inner_list_read};

use crate::error::PartError;
use crate::params::{read_item_text, read_parameters};
use byte_grammar::{Byte, Left, read_all, read_byte, starts_with};
use sfv_text::{InnerList, Item, Items};
use std::alloc::Global;

/// Reads Items in parentheses, separated by spaces, and parameters.
#[tactic(auto, unfolding(crate::specs::tools::InnerWalk::inner_list_read))]
pub fn read_inner_list_text(alloc: Global, bytes: &[u8]) -> Result<(InnerList, &[u8]), PartError>
    ensures gives { GivesUnlessMemory (λ x. (x.0, x.1.now)) result (inner_list_read bytes.now) }
    ensures some { UnlessStopped result (1 ≤ length bytes.now) }
{
    let (_, rest) = read_byte(Byte(b'('), bytes)?;
    let (_, rest) = read_all(Byte(b' '), rest);
    let (items, rest) = read_items(alloc, rest)?;
    let (params, rest) = read_parameters(alloc, rest)?;
    Ok((InnerList { items, params }, rest))
}

/// Reads Items up to the parenthesis that ends them.
#[tactic(auto, unfolding(crate::specs::tools::InnerWalk::items_read))]
fn read_items(alloc: Global, bytes: &[u8]) -> Result<(Items, &[u8]), PartError>
    ensures { GivesUnlessMemory (λ x. (x.0, x.1.now)) result (items_read bytes.now) }
{
    let (first, rest) = read_item_or_close(alloc, bytes)?;
    let mut items = Items::new(alloc);
    match first {
        None => Ok((items, rest)),
        Some(item) => {
            items.push(item)?;
            read_more(alloc, items, rest)
        }
    }
}

/// Reads the Items after those that were read, up to the parenthesis that ends them.
fn read_more(alloc: Global, first: Items, bytes: &[u8]) -> Result<(Items, &[u8]), PartError>
    ensures { GivesUnlessMemory (λ x. (x.0, x.1.now)) result
        (with_prefix first (turns_read next_item_read bytes.now)) }
{
    let mut items = first;
    let mut rest = bytes;
    'items: loop {
        let (next, after) = read_next_item(alloc, rest)?;
        match next {
            None => return Ok((items, after)),
            Some(item) => {
                items.push(item)?;
                rest = after;
            }
        }
    }
}

/// Reads spaces and an Item, or the parenthesis. An Item comes after a space alone.
#[tactic(auto, unfolding(crate::specs::tools::InnerWalk::next_item_read))]
fn read_next_item(alloc: Global, bytes: &[u8]) -> Result<(Option<Item>, &[u8]), PartError>
    ensures { GivesUnlessMemory (λ x. (x.0, x.1.now)) result (next_item_read bytes.now) }
{
    let (gap, rest) = read_all(Byte(b' '), bytes);
    match gap {
        [] => Ok(read_close(rest)?),
        [_, ..] => read_item_or_close(alloc, rest),
    }
}

#[tactic(auto, unfolding(crate::specs::tools::InnerWalk::item_or_close_read, byte_grammar::specs::tools::Walks::choose_read, byte_grammar::specs::tools::Walks::pick_read))]
fn read_item_or_close(alloc: Global, bytes: &[u8]) -> Result<(Option<Item>, &[u8]), PartError>
    ensures { GivesUnlessMemory (λ x. (x.0, x.1.now)) result (item_or_close_read bytes.now) }
{
    if bytes.is_empty() {
        return Err(PartError::At(0));
    }
    if starts_with(Byte(b')'), bytes) {
        return Ok(read_close(bytes)?);
    }
    read_some_item(alloc, bytes)
}

#[tactic(auto, unfolding(crate::specs::tools::InnerWalk::some_item_read))]
fn read_some_item(alloc: Global, bytes: &[u8]) -> Result<(Option<Item>, &[u8]), PartError>
    ensures { GivesUnlessMemory (λ x. (x.0, x.1.now)) result (some_item_read bytes.now) }
{
    let (item, rest) = read_item_text(alloc, bytes)?;
    Ok((Some(item), rest))
}

#[tactic(auto, unfolding(crate::specs::tools::InnerWalk::close_read))]
fn read_close(bytes: &[u8]) -> Result<(Option<Item>, &[u8]), Left>
    ensures { Gives (λ x. (x.0, x.1.now)) result (close_read bytes.now) }
{
    let (_, rest) = read_byte(Byte(b')'), bytes)?;
    Ok((None, rest))
}
