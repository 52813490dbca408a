//! Members of Lists and Dictionaries (RFC 9651 sections 3.1 and 3.2).

ghost use Rattle.sfv_read.specs.tools.Gives.{GivesUnlessMemory};
ghost use Rattle.sfv_read.specs.tools.MemberWalk.{inner_member_read, item_member_read, member_read, equals_member_read, dict_value_read, dict_member_read};

use crate::error::PartError;
use crate::inner::read_inner_list_text;
use crate::params::{read_item_text, read_key, read_parameters};
use byte_grammar::{Byte, read_byte, starts_with};
use sfv_text::{BareItem, Item, Member, Pair};
use std::alloc::Global;

/// Reads an Item or an Inner List.
#[tactic(auto, unfolding(crate::specs::tools::MemberWalk::member_read, byte_grammar::specs::tools::Walks::choose_read, byte_grammar::specs::tools::Walks::pick_read))]
pub fn read_member(alloc: Global, bytes: &[u8]) -> Result<(Member, &[u8]), PartError>
    ensures { GivesUnlessMemory (λ x. (x.0, x.1.now)) result (member_read bytes.now) }
{
    if bytes.is_empty() {
        return Err(PartError::At(0));
    }
    if starts_with(Byte(b'('), bytes) {
        return read_inner_member(alloc, bytes);
    }
    read_item_member(alloc, bytes)
}

#[tactic(auto, unfolding(crate::specs::tools::MemberWalk::inner_member_read))]
fn read_inner_member(alloc: Global, bytes: &[u8]) -> Result<(Member, &[u8]), PartError>
    ensures { GivesUnlessMemory (λ x. (x.0, x.1.now)) result (inner_member_read bytes.now) }
{
    let (list, rest) = read_inner_list_text(alloc, bytes)?;
    Ok((Member::InnerList(list), rest))
}

#[tactic(auto, unfolding(crate::specs::tools::MemberWalk::item_member_read))]
fn read_item_member(alloc: Global, bytes: &[u8]) -> Result<(Member, &[u8]), PartError>
    ensures { GivesUnlessMemory (λ x. (x.0, x.1.now)) result (item_member_read bytes.now) }
{
    let (item, rest) = read_item_text(alloc, bytes)?;
    Ok((Member::Item(item), rest))
}

#[tactic(auto, unfolding(crate::specs::tools::MemberWalk::dict_member_read))]
pub fn read_pair(alloc: Global, bytes: &[u8]) -> Result<(Pair<Member>, &[u8]), PartError>
    ensures { GivesUnlessMemory (λ x. (x.0, x.1.now)) result (dict_member_read bytes.now) }
{
    let (key, rest) = read_key(alloc, bytes)?;
    let (value, rest) = read_dict_value(alloc, rest)?;
    Ok((Pair { key, value }, rest))
}

/// Reads `=` and a member, or parameters alone for true.
#[tactic(auto, unfolding(crate::specs::tools::MemberWalk::dict_value_read, byte_grammar::specs::tools::Walks::optional_read))]
fn read_dict_value(alloc: Global, bytes: &[u8]) -> Result<(Member, &[u8]), PartError>
    ensures { GivesUnlessMemory (λ x. (x.0, x.1.now)) result (dict_value_read bytes.now) }
{
    if starts_with(Byte(b'='), bytes) {
        return read_equals_member(alloc, bytes);
    }
    let (params, rest) = read_parameters(alloc, bytes)?;
    let bare = BareItem::Bool(true);
    Ok((Member::Item(Item { bare, params }), rest))
}

#[tactic(auto, unfolding(crate::specs::tools::MemberWalk::equals_member_read))]
fn read_equals_member(alloc: Global, bytes: &[u8]) -> Result<(Member, &[u8]), PartError>
    ensures { GivesUnlessMemory (λ x. (x.0, x.1.now)) result (equals_member_read bytes.now) }
{
    let (_, rest) = read_byte(Byte(b'='), bytes)?;
    read_member(alloc, rest)
}
