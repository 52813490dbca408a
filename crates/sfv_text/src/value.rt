//! The values of structured fields (RFC 9651 section 3).

ghost use Rattle.std.specs.Prelude.{◌≡◌, ◌≤◌, ◌<◌, ◌++◌, ◌↔◌, ◌⊎◌, length, option_map, option_and_then, IsTrue, IfOk, IfErr, IfSome, OnOk};
ghost use Rattle.std.specs.List.{list_all};
ghost use Rattle.byte_grammar.specs.declared.short.TheConstants.{IN_PLACE};
ghost use Rattle.sfv_text.specs.Equality.{is_equal_bare, is_equal_param};
ghost use Rattle.sfv_text.specs.Keys.{value_of};
ghost use Rattle.sfv_text.specs.Parts.{byte_sequence_in, bytes_in, integer_in, is_integer, is_string, is_true, string_in};
ghost use Rattle.sfv_text.specs.declared.value.BareItem.TheVariants.{Str};
ghost use Rattle.sfv_text.specs.Range.{are_params_in_range, is_string_byte};
ghost use Rattle.sfv_text.specs.Values.{own_bytes};

use crate::pair::Pair;
use crate::pairs::Pairs;
use byte_grammar::{Memory, Sequence, Text};
use std::alloc::Global;

/// A bare item (RFC 9651 section 3.3).
///
/// The ranges below are those of a structured field: only what is in range has a text.
#[derive(Debug, Drop)]
pub enum BareItem {
    /// An Integer, from -999,999,999,999,999 to 999,999,999,999,999 (section 3.3.1).
    Integer(i64),
    /// A Decimal in thousandths: at most twelve digits before the point and three after it, so
    /// from -999,999,999,999,999 to 999,999,999,999,999 thousandths (section 3.3.2).
    Decimal(i64),
    /// The characters of a String, without quotes and escapes: printable ASCII, 0x20 to 0x7E
    /// (section 3.3.3).
    Str(Text),
    /// A Token: a letter or `*`, and after it letters, digits and ``!#$%&'*+-.^_`|~:/``
    /// (section 3.3.4).
    Token(Text),
    /// The bytes that a Byte Sequence spells in base64, whatever they are (section 3.3.5).
    Bytes(Text),
    /// A Boolean (section 3.3.6).
    Bool(bool),
    /// A Date, in seconds since 1970-01-01 00:00 UTC without leap seconds, from
    /// -999,999,999,999,999 to 999,999,999,999,999 (section 3.3.7).
    Date(i64),
    /// The UTF-8 of a Display String (section 3.3.8).
    Display(Text),
}

impl BareItem {
    /// An equal bare item of its own.
    pub fn copy(&self, alloc: Global) -> Result<BareItem, Memory>
        ensures ok { IfOk result (λ bare. bare ≡ self.now) }
        ensures needed { IfErr result (λ _. IN_PLACE < length (own_bytes self.now)) }
    {
        match self {
            BareItem::Integer(value) => Ok(BareItem::Integer(*value)),
            BareItem::Decimal(thousandths) => Ok(BareItem::Decimal(*thousandths)),
            BareItem::Str(text) => Ok(BareItem::Str(text.copy(alloc)?)),
            BareItem::Token(text) => Ok(BareItem::Token(text.copy(alloc)?)),
            BareItem::Bytes(bytes) => Ok(BareItem::Bytes(bytes.copy(alloc)?)),
            BareItem::Bool(value) => Ok(BareItem::Bool(*value)),
            BareItem::Date(seconds) => Ok(BareItem::Date(*seconds)),
            BareItem::Display(bytes) => Ok(BareItem::Display(bytes.copy(alloc)?)),
        }
    }

    /// Whether the other is of the same type and has the same value.
    pub fn is_equal(&self, other: &BareItem) -> bool
        ensures is { result ≡ is_equal_bare self.now other.now }
        ensures exact { IsTrue result ↔ (self.now ≡ other.now) }
    {
        match (self, other) {
            (BareItem::Integer(a), BareItem::Integer(b)) => a == b,
            (BareItem::Decimal(a), BareItem::Decimal(b)) => a == b,
            (BareItem::Str(a), BareItem::Str(b)) => a.bytes() == b.bytes(),
            (BareItem::Token(a), BareItem::Token(b)) => a.bytes() == b.bytes(),
            (BareItem::Bytes(a), BareItem::Bytes(b)) => a.bytes() == b.bytes(),
            (BareItem::Bool(a), BareItem::Bool(b)) => a == b,
            (BareItem::Date(a), BareItem::Date(b)) => a == b,
            (BareItem::Display(a), BareItem::Display(b)) => a.bytes() == b.bytes(),
            _ => false,
        }
    }

    /// The number of an Integer (RFC 9651 section 3.3.1); None for each other bare item.
    pub fn as_integer(&self) -> Option<i64>
        ensures { result ≡ integer_in self.now }
    {
        match self {
            BareItem::Integer(number) => Some(*number),
            _ => None,
        }
    }

    /// The characters of a String (RFC 9651 section 3.3.3); None for each other bare item.
    pub fn as_string(&self) -> Option<&Text>
        ensures is { option_map (λ text. text.now) result ≡ string_in self.now }
        ensures whole { IfSome result (λ text. self.now ≡ Str text.now) }
    {
        match self {
            BareItem::Str(text) => Some(text),
            _ => None,
        }
    }

    /// The bytes of a Byte Sequence (RFC 9651 section 3.3.5); None for each other bare item.
    pub fn as_byte_sequence(&self) -> Option<&Text>
        ensures { option_map (λ bytes. bytes.now) result ≡ bytes_in self.now }
    {
        match self {
            BareItem::Bytes(bytes) => Some(bytes),
            _ => None,
        }
    }

    /// Whether it is an Integer.
    pub fn is_integer(&self) -> bool
        ensures { result ≡ is_integer self.now }
    {
        matches!(self, BareItem::Integer(_))
    }

    /// Whether it is a String.
    pub fn is_string(&self) -> bool
        ensures { result ≡ is_string self.now }
    {
        matches!(self, BareItem::Str(_))
    }

    /// Whether it is Boolean true (RFC 9651 section 3.3.6).
    pub fn is_true(&self) -> bool
        ensures { result ≡ is_true self.now }
    {
        matches!(self, BareItem::Bool(true))
    }
}

/// Parameters (RFC 9651 section 3.1.2).
pub type Params = Pairs<BareItem>;

impl Pair<BareItem> {
    /// Whether the other has the same key and an equal value.
    pub fn is_equal(&self, other: &Pair<BareItem>) -> bool
        ensures is { result ≡ is_equal_param self.now other.now }
        ensures exact { IsTrue result ↔ (self.now ≡ other.now) }
    {
        self.key.bytes() == other.key.bytes() && self.value.is_equal(&other.value)
    }
}

fn copy_of_param(alloc: Global, param: &Pair<BareItem>) -> Result<Pair<BareItem>, Memory>
    ensures { IfOk result (λ copy. copy ≡ param.now) }
{
    Ok(Pair {
        key: param.key.copy(alloc)?,
        value: param.value.copy(alloc)?,
    })
}

fn append_copies(
    alloc: Global,
    params: &[Pair<BareItem>],
    copies: &mut Vec<Pair<BareItem>>,
) -> Result<(), Memory>
    ensures { OnOk result (copies.new.items ≡ copies.old.items ++ params.now) }
{
    for param in params {
        copies.reserve(1)?;
        copies.push_reserved(copy_of_param(alloc, param)?);
    }
    Ok(())
}

impl Pairs<BareItem> {
    /// Equal parameters of their own.
    pub fn copy(&self, alloc: Global) -> Result<Params, Memory>
        ensures ok { IfOk result (λ params. params ≡ self.now) }
        ensures needed { IfErr result (λ _. 1 ≤ length self.now) }
    {
        let params = self.as_slice();
        if params.is_empty() {
            return Ok(Pairs::new(alloc));
        }
        let mut copies = Vec::with_capacity(alloc, params.len())?;
        append_copies(alloc, params, &mut copies)?;
        Ok(Pairs::from_vec(copies))
    }

    /// The characters of the parameter of the key, where it is a String (RFC 9651 section 3.3.3).
    pub fn string(&self, key: &[u8]) -> Option<&Text>
        ensures is { option_map (λ text. text.now) result
            ≡ option_and_then string_in (value_of self.now key.now) }
        ensures in_range { IsTrue (are_params_in_range self.now)
            → IfSome result (λ text. IsTrue (list_all is_string_byte text.now)) }
    {
        match self.find(key) {
            Some(BareItem::Str(text)) => Some(text),
            _ => None,
        }
    }

    /// The number of the parameter of the key, where it is an Integer (RFC 9651 section 3.3.1).
    pub fn integer(&self, key: &[u8]) -> Option<i64>
        ensures { result ≡ option_and_then integer_in (value_of self.now key.now) }
    {
        match self.find(key) {
            Some(BareItem::Integer(number)) => Some(*number),
            _ => None,
        }
    }
}

/// An Item: a bare item with its parameters (RFC 9651 section 3.3).
#[derive(Drop)]
pub struct Item {
    pub bare: BareItem,
    pub params: Params,
}

impl Item {
    /// An equal Item of its own.
    pub fn copy(&self, alloc: Global) -> Result<Item, Memory>
        ensures ok { IfOk result (λ item. item ≡ self.now) }
        ensures needed { IfErr result (λ _. (IN_PLACE < length (own_bytes self.now.bare))
            ⊎ (1 ≤ length self.now.params)) }
    {
        Ok(Item {
            bare: self.bare.copy(alloc)?,
            params: self.params.copy(alloc)?,
        })
    }
}

/// The Items of an Inner List.
pub type Items = Sequence<Item>;

/// An Inner List: Items, and parameters of the list itself (RFC 9651 section 3.1.1).
#[derive(Drop)]
pub struct InnerList {
    pub items: Items,
    pub params: Params,
}

/// A member of a List, or the value of a Dictionary's member (RFC 9651 sections 3.1 and 3.2).
#[derive(Drop)]
pub enum Member {
    Item(Item),
    InnerList(InnerList),
}

impl Member {
    /// The bytes of a Byte Sequence (RFC 9651 section 3.3.5), whatever its parameters; None for
    /// each other member.
    pub fn byte_sequence(&self) -> Option<&Text>
        ensures { option_map (λ bytes. bytes.now) result ≡ byte_sequence_in self.now }
    {
        match self {
            Member::Item(item) => item.bare.as_byte_sequence(),
            Member::InnerList(_) => None,
        }
    }
}

/// A List: its members, in order (RFC 9651 section 3.1).
pub type List = Sequence<Member>;

/// A Dictionary: its members with their keys, in order (RFC 9651 section 3.2).
pub type Dict = Pairs<Member>;
