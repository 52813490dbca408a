//! The strict texts of structured values.

ghost use Rattle.std.specs.Prelude.{◌≡◌, ℕ, Some, None, List, IfOk, IsTrue, MatchResult};
ghost use Rattle.sfv_text.specs.Range.{is_dict_in_range, is_item_in_range};
ghost use Rattle.sfv_text.specs.Strict.{item_text, list_text, dict_text};
ghost use Rattle.sfv_read.specs.Reads.{ReadsItem, ReadsList, ReadsDict};
ghost use Rattle.msg_head.specs.Values.{joined_value};
ghost use Rattle.component_values.specs.Readings.{DictRow};
ghost use Rattle.component_values.specs.Values.{StrictRow, KindRow, MemberRow};
ghost use Rattle.derived_values.specs.Answers.{AnswersRow};
ghost use Rattle.derived_values.specs.declared.lack.NoValue.TheVariants.{Memory as NoMemory};

use component_ids::FieldKind;
use derived_values::{Lack, NoValue};
use msg_body::joined_value;
use msg_head::NamedFieldLines;
use sfv_read::{SfError, read_dict, read_item, read_list};
use sfv_text::{Dict, Item, Memory, Text, print_dict, print_item, print_list, print_member};
use std::alloc::Global;

fn text_of_item(alloc: Global, item: &Item) -> Result<Text, NoValue>
    requires { IsTrue (is_item_in_range item.now) }
    ensures { MatchResult result (λ text. text ≡ item_text item.now) (λ why. why ≡ NoMemory) }
{
    Ok(print_item(alloc, item)?)
}

#[tactic(auto, using(crate::proofs::Unread::unread))]
fn strict_item(alloc: Global, text: &[u8]) -> Result<Text, NoValue>
    ensures { AnswersRow (StrictRow ReadsItem item_text text.now) result }
{
    let item = read_item(alloc, text)?;
    text_of_item(alloc, &item)
}

#[tactic(auto, using(crate::proofs::Unread::unread))]
fn strict_list(alloc: Global, text: &[u8]) -> Result<Text, NoValue>
    ensures { AnswersRow (StrictRow ReadsList list_text text.now) result }
{
    let list = read_list(alloc, text)?;
    Ok(print_list(alloc, &list)?)
}

fn text_of_dict(alloc: Global, dict: &Dict) -> Result<Text, NoValue>
    requires { IsTrue (is_dict_in_range dict.now) }
    ensures { MatchResult result (λ text. text ≡ dict_text dict.now) (λ why. why ≡ NoMemory) }
{
    Ok(print_dict(alloc, dict)?)
}

#[tactic(auto, using(crate::proofs::Unread::unread))]
fn strict_dict(alloc: Global, text: &[u8]) -> Result<Text, NoValue>
    ensures { AnswersRow (StrictRow ReadsDict dict_text text.now) result }
{
    let dict = read_dict(alloc, text)?;
    text_of_dict(alloc, &dict)
}

/// The strict text of what the text reads as, by the kind of its field.
fn strict_value(alloc: Global, kind: Option<FieldKind>, text: &[u8]) -> Result<Text, NoValue>
    ensures { AnswersRow (KindRow kind text.now) result }
{
    match kind {
        Some(FieldKind::Item) => strict_item(alloc, text),
        Some(FieldKind::List) => strict_list(alloc, text),
        Some(FieldKind::Dictionary) => strict_dict(alloc, text),
        None => Err(NoValue::Lacks(Lack::Unreadable)),
    }
}

/// What the text comes to as a strict text, by the kind of its field.
fn strict_text(
    alloc: Global,
    kind: Option<FieldKind>,
    text: &[u8],
) -> Result<Result<Text, Lack>, Memory>
    ensures { IfOk result (KindRow kind text.now) }
{
    match strict_value(alloc, kind, text) {
        Ok(text) => Ok(Ok(text)),
        Err(NoValue::Lacks(lack)) => Ok(Err(lack)),
        Err(NoValue::Memory) => Err(Memory),
    }
}

/// What the combined value of the lines comes to as a strict text, by the kind of their field (RFC
/// 9421 section 2.1.1).
pub fn strict_answer(
    alloc: Global,
    kind: Option<FieldKind>,
    lines: NamedFieldLines<'_, '_>,
) -> Result<Result<Text, Lack>, Memory>
    ensures { IfOk result (KindRow kind (joined_value lines.entry)) }
{
    let value = joined_value(alloc, lines)?;
    strict_text(alloc, kind, value.bytes())
}

/// The strict text of its own.
pub(crate) fn copied_text(alloc: Global, answer: &Result<Text, Lack>) -> Result<Text, NoValue>
    ensures { AnswersRow (λ copied. copied ≡ answer.now) result }
{
    match answer {
        Ok(text) => Ok(text.copy(alloc)?),
        Err(lack) => Err(NoValue::Lacks(*lack)),
    }
}

/// What the text comes to as a Dictionary.
fn dict_of(alloc: Global, text: &[u8]) -> Result<Result<Dict, Lack>, Memory>
    ensures { IfOk result (DictRow text.now) }
{
    match read_dict(alloc, text) {
        Ok(dict) => Ok(Ok(dict)),
        Err(SfError::Memory) => Err(Memory),
        Err(SfError::Syntax(_)) => Ok(Err(Lack::Unreadable)),
    }
}

/// What the combined value of the lines comes to as a Dictionary.
pub(crate) fn dict_answer(
    alloc: Global,
    lines: NamedFieldLines<'_, '_>,
) -> Result<Result<Dict, Lack>, Memory>
    ensures { IfOk result (DictRow (joined_value lines.entry)) }
{
    let value = joined_value(alloc, lines)?;
    dict_of(alloc, value.bytes())
}

/// The strict text of the member of the key, in what a text comes to as a Dictionary.
#[tactic(auto, using(crate::proofs::Unread::no_dict, crate::proofs::Unread::has_member, crate::proofs::Unread::member_in_range))]
pub(crate) fn member_in(
    alloc: Global,
    answer: &Result<Dict, Lack>,
    key: &[u8],
) -> Result<Text, NoValue>
    requires { (text : List ℕ) × DictRow text answer.now }
    ensures { (text : List ℕ) → DictRow text answer.now
        → AnswersRow (MemberRow key.now text) result }
{
    let dict = match answer {
        Ok(dict) => dict,
        Err(lack) => return Err(NoValue::Lacks(*lack)),
    };
    match dict.find(key) {
        Some(member) => Ok(print_member(alloc, member)?),
        None => Err(NoValue::Lacks(Lack::Absent)),
    }
}
