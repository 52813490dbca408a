//! Values as text (RFC 9651 section 4.1).

ghost use Rattle.std.specs.Prelude.{◌≡◌, ◌++◌, IsTrue, IfOk, OnOk};
ghost use Rattle.std.specs.List.{list_all, join_by};
ghost use Rattle.sfv_text.specs.Range.{is_bare_in_range, is_item_in_range, is_inner_in_range, is_member_in_range, is_list_in_range, is_dict_in_range, is_string_byte};
ghost use Rattle.sfv_text.specs.declared.value.BareItem.TheVariants.{Str};
ghost use Rattle.sfv_text.specs.Strict.{bare_text, param_value_text, params_text, item_text, inner_text, member_text, list_text, dict_item_text, dict_value_text, dict_text};

use crate::bare::{write_bare, write_string};
use crate::pair::Pair;
use crate::value::{BareItem, Dict, InnerList, Item, List, Member, Params};
use byte_grammar::{Memory, Text};
use std::alloc::Global;

/// Stands between two items of an Inner List.
const BETWEEN_ITEMS: &[u8] = b" ";

/// Stands between two members of a List or a Dictionary.
const BETWEEN_MEMBERS: &[u8] = b", ";

/// The strict text of a bare item (RFC 9651 section 4.1.3.1).
#[tactic(auto, using(crate::proofs::Printable::bare_is))]
pub fn print_bare(alloc: Global, value: &BareItem) -> Result<Text, Memory>
    requires { IsTrue (is_bare_in_range value.now) }
    ensures is { IfOk result (λ text. text ≡ bare_text value.now) }
    ensures printable { IfOk result (λ text. IsTrue (list_all is_string_byte text)) }
{
    let mut text = Text::new(alloc);
    write_bare(value, &mut text)?;
    Ok(text)
}

/// The strict text of an Item.
#[tactic(auto, using(crate::proofs::Printable::item_is))]
pub fn print_item(alloc: Global, value: &Item) -> Result<Text, Memory>
    requires { IsTrue (is_item_in_range value.now) }
    ensures is { IfOk result (λ text. text ≡ item_text value.now) }
    ensures printable { IfOk result (λ text. IsTrue (list_all is_string_byte text)) }
{
    let mut text = Text::new(alloc);
    value.write(&mut text)?;
    Ok(text)
}

/// The strict text of an Inner List.
#[tactic(auto, using(crate::proofs::Printable::inner_is))]
pub fn print_inner(alloc: Global, value: &InnerList) -> Result<Text, Memory>
    requires { IsTrue (is_inner_in_range value.now) }
    ensures is { IfOk result (λ text. text ≡ inner_text value.now) }
    ensures printable { IfOk result (λ text. IsTrue (list_all is_string_byte text)) }
{
    let mut text = Text::new(alloc);
    value.write(&mut text)?;
    Ok(text)
}

/// The strict text of a member of a List, which is that of an Item or of an Inner List.
#[tactic(auto, using(crate::proofs::Printable::member_is))]
pub fn print_member(alloc: Global, value: &Member) -> Result<Text, Memory>
    requires { IsTrue (is_member_in_range value.now) }
    ensures is { IfOk result (λ text. text ≡ member_text value.now) }
    ensures printable { IfOk result (λ text. IsTrue (list_all is_string_byte text)) }
{
    let mut text = Text::new(alloc);
    value.write(&mut text)?;
    Ok(text)
}

/// The strict text of a List. An empty List has the empty text.
#[tactic(auto, using(crate::proofs::Printable::list_is))]
pub fn print_list(alloc: Global, value: &List) -> Result<Text, Memory>
    requires { IsTrue (is_list_in_range value.now) }
    ensures is { IfOk result (λ text. text ≡ list_text value.now) }
    ensures printable { IfOk result (λ text. IsTrue (list_all is_string_byte text)) }
{
    let mut text = Text::new(alloc);
    write_joined(value.as_slice(), BETWEEN_MEMBERS, &mut text)?;
    Ok(text)
}

/// The strict text of a Dictionary. An empty Dictionary has the empty text.
#[tactic(auto, using(crate::proofs::Printable::dict_is))]
pub fn print_dict(alloc: Global, value: &Dict) -> Result<Text, Memory>
    requires { IsTrue (is_dict_in_range value.now) }
    ensures is { IfOk result (λ text. text ≡ dict_text value.now) }
    ensures printable { IfOk result (λ text. IsTrue (list_all is_string_byte text)) }
{
    let mut text = Text::new(alloc);
    write_joined(value.as_slice(), BETWEEN_MEMBERS, &mut text)?;
    Ok(text)
}

/// A value that has a text.
pub(crate) trait Write {
    ghost use Rattle.std.specs.Prelude.{ℕ, List};

    // The strict text of the value.
    ghost text_of: { Self → List ℕ };

    /// Adds the text at the end.
    fn write(&self, text: &mut Text) -> Result<(), Memory>
        ensures { OnOk result (text.new ≡ text.old ++ text_of self.now) };
}

/// Adds the texts at the end, with the separator between each two.
pub(crate) fn write_joined<T: Write>(
    values: &[T],
    separator: &[u8],
    text: &mut Text,
) -> Result<(), Memory>
    ensures { OnOk result (text.new ≡ text.old ++ join_by T.text_of separator.now values.now) }
{
    let [first, others @ ..] = values else {
        return Ok(());
    };
    first.write(text)?;
    for value in others {
        text.append(separator)?;
        value.write(text)?;
    }
    Ok(())
}

fn write_param_value(value: &BareItem, text: &mut Text) -> Result<(), Memory>
    ensures { OnOk result (text.new ≡ text.old ++ param_value_text value.now) }
{
    match value {
        BareItem::Bool(true) => Ok(()),
        _ => {
            text.push(b'=')?;
            write_bare(value, text)
        }
    }
}

impl Write for Pair<BareItem> {
    ghost use Rattle.sfv_text.specs.Strict.{param_text};

    ghost text_of = { param_text };

    fn write(&self, text: &mut Text) -> Result<(), Memory> {
        text.push(b';')?;
        text.append(self.key.bytes())?;
        write_param_value(&self.value, text)
    }
}

/// Adds the strict text of parameters (RFC 9651 section 4.1.1.2) at the end. After an error a part
/// of it may have been added.
pub fn append_params(params: &Params, text: &mut Text) -> Result<(), Memory>
    ensures { OnOk result (text.new ≡ text.old ++ params_text params.now) }
{
    let pairs = params.as_slice();
    for param in pairs {
        param.write(text)?;
    }
    Ok(())
}

/// Adds the strict text of an Item whose bare item is a String (RFC 9651 section 4.1.3) at the end,
/// from its characters and parameters. After an error a part of it may have been added.
pub fn append_string_item(characters: &[u8], params: &Params, text: &mut Text) -> Result<(), Memory>
    ensures { OnOk result (text.new ≡ text.old
        ++ item_text (record { bare = Str characters.now; params = params.now })) }
{
    write_string(characters, text)?;
    append_params(params, text)
}

impl Write for Item {
    ghost use Rattle.sfv_text.specs.Strict.{item_text};

    ghost text_of = { item_text };

    fn write(&self, text: &mut Text) -> Result<(), Memory> {
        write_bare(&self.bare, text)?;
        append_params(&self.params, text)
    }
}

impl Write for InnerList {
    ghost use Rattle.sfv_text.specs.Strict.{inner_text};

    ghost text_of = { inner_text };

    fn write(&self, text: &mut Text) -> Result<(), Memory> {
        text.push(b'(')?;
        write_joined(self.items.as_slice(), BETWEEN_ITEMS, text)?;
        text.push(b')')?;
        append_params(&self.params, text)
    }
}

impl Write for Member {
    ghost use Rattle.sfv_text.specs.Strict.{member_text};

    ghost text_of = { member_text };

    fn write(&self, text: &mut Text) -> Result<(), Memory> {
        match self {
            Member::Item(item) => item.write(text),
            Member::InnerList(inner) => inner.write(text),
        }
    }
}

/// An Item after its key: Boolean true is its parameters alone.
fn write_dict_item(item: &Item, text: &mut Text) -> Result<(), Memory>
    ensures { OnOk result (text.new ≡ text.old ++ dict_item_text item.now.bare item.now.params) }
{
    match item.bare {
        BareItem::Bool(true) => append_params(&item.params, text),
        _ => {
            text.push(b'=')?;
            item.write(text)
        }
    }
}

/// What comes after the key.
fn write_dict_value(value: &Member, text: &mut Text) -> Result<(), Memory>
    ensures { OnOk result (text.new ≡ text.old ++ dict_value_text value.now) }
{
    match value {
        Member::Item(item) => write_dict_item(item, text),
        Member::InnerList(inner) => {
            text.push(b'=')?;
            inner.write(text)
        }
    }
}

impl Write for Pair<Member> {
    ghost use Rattle.sfv_text.specs.Strict.{dict_member_text};

    ghost text_of = { dict_member_text };

    fn write(&self, text: &mut Text) -> Result<(), Memory> {
        text.append(self.key.bytes())?;
        write_dict_value(&self.value, text)
    }
}
