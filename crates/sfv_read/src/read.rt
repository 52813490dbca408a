//! Readers of the four kinds of structured field.

ghost use Rattle.std.specs.Prelude.{◌≡◌, List as Listed, is_some, IfOk, IfErr, IsTrue};
ghost use Rattle.sfv_text.specs.Keys.{value_of};
ghost use Rattle.sfv_text.specs.declared.value.Item.{Item};
ghost use Rattle.sfv_text.specs.declared.value.InnerList.{InnerList};
ghost use Rattle.sfv_text.specs.declared.value.Member.{Member};
ghost use Rattle.sfv_text.specs.Range.{is_item_in_range, is_inner_in_range, is_list_in_range, is_dict_in_range};
ghost use Rattle.sfv_text.specs.declared.pair.Pair.{Pair};
ghost use Rattle.sfv_read.specs.Fault.{IsRead, IsSfError};
ghost use Rattle.sfv_read.specs.Reads.{ReadsItem, ReadsInner, ReadsList, ReadsDict};

use crate::error::SfError;
use crate::field::{answer, read_padded_inner, read_padded_item};
use crate::separated::{AsDict, AsList, HasKey, read_separated};
use sfv_text::{Dict, InnerList, Item, List, Member};
use std::alloc::Global;

/// Reads an Item (RFC 9651 section 4.2.3), with spaces at both ends.
pub fn read_item(alloc: Global, text: &[u8]) -> Result<Item, SfError>
    ensures ok { IfOk result (λ value. ReadsItem text.now value) }
    ensures in_range { IfOk result (λ value. IsTrue (is_item_in_range value)) }
    ensures only { (value : Item) → ReadsItem text.now value → IsRead result value }
    ensures fault { IfErr result (λ e. IsSfError ReadsItem text.now e) }
{
    answer(text, read_padded_item(alloc, text))
}

/// Reads an Inner List (RFC 9651 section 4.2.1.2) alone, with spaces at both ends.
pub fn read_inner(alloc: Global, text: &[u8]) -> Result<InnerList, SfError>
    ensures ok { IfOk result (λ value. ReadsInner text.now value) }
    ensures in_range { IfOk result (λ value. IsTrue (is_inner_in_range value)) }
    ensures only { (value : InnerList) → ReadsInner text.now value → IsRead result value }
    ensures fault { IfErr result (λ e. IsSfError ReadsInner text.now e) }
{
    answer(text, read_padded_inner(alloc, text))
}

/// Reads a List (RFC 9651 section 4.2.1), with spaces at both ends. A text of spaces alone is the
/// empty List.
pub fn read_list(alloc: Global, text: &[u8]) -> Result<List, SfError>
    ensures ok { IfOk result (λ value. ReadsList text.now value) }
    ensures in_range { IfOk result (λ value. IsTrue (is_list_in_range value)) }
    ensures only { (value : Listed Member) → ReadsList text.now value → IsRead result value }
    ensures fault { IfErr result (λ e. IsSfError ReadsList text.now e) }
{
    answer(text, read_separated(alloc, &AsList, text))
}

/// Reads a Dictionary (RFC 9651 section 4.2.2), with spaces at both ends. A text of spaces alone is
/// the empty Dictionary. A repeated key keeps its first place and has its last value.
pub fn read_dict(alloc: Global, text: &[u8]) -> Result<Dict, SfError>
    ensures ok { IfOk result (λ value. ReadsDict text.now value) }
    ensures in_range { IfOk result (λ value. IsTrue (is_dict_in_range value)) }
    ensures only { (value : Listed (Pair Member)) → ReadsDict text.now value → IsRead result value }
    ensures fault { IfErr result (λ e. IsSfError ReadsDict text.now e) }
{
    answer(text, read_separated(alloc, &AsDict, text))
}

/// Whether the Dictionary of the text has a member of the key. It fails where `read_dict` does.
pub fn has_key(alloc: Global, text: &[u8], key: &[u8]) -> Result<bool, SfError>
    ensures ok { IfOk result (λ has. (dict : Listed (Pair Member))
        × ReadsDict text.now dict × (has ≡ is_some (value_of dict key.now))) }
    ensures only { (dict : Listed (Pair Member)) → ReadsDict text.now dict
        → IsRead result (is_some (value_of dict key.now)) }
    ensures fault { IfErr result (λ e. IsSfError ReadsDict text.now e) }
{
    answer(text, read_separated(alloc, &HasKey(key), text))
}
