//! Prints lists of fields.

ghost use Rattle.std.specs.Prelude.{◌≡◌, ◌++◌, IfOk, OnOk, length};
ghost use Rattle.std.specs.List.{flat_map};
ghost use Rattle.byte_grammar.specs.Numbers.{number_line};
ghost use Rattle.list_texts.specs.Lists.{numbers_line, field_text, content_text, list_text};

use crate::list::{Field, FieldList};
use crate::read::{FIRST_LINE, LAST_LINE};
use byte_grammar::{Memory, Text, append_number};
use std::alloc::Global;

// Adds a line with a number.
fn append_line(alloc: Global, word: &[u8], number: usize, text: &mut Text) -> Result<(), Memory>
    ensures { OnOk result (text.new ≡ text.old ++ number_line word.now number) }
{
    append_number(alloc, word, number, text)?;
    text.append(b"\n")
}

// Adds the line of a field.
fn append_sizes(alloc: Global, word: &[u8], field: &Field, text: &mut Text) -> Result<(), Memory>
    ensures { OnOk result (text.new ≡ text.old
        ++ numbers_line word.now (length field.now.name) (length field.now.value)) }
{
    append_number(alloc, word, field.name.bytes().len(), text)?;
    append_line(alloc, b" ", field.value.bytes().len(), text)
}

// Adds a field.
fn append_field(alloc: Global, word: &[u8], field: &Field, text: &mut Text) -> Result<(), Memory>
    ensures { OnOk result (text.new ≡ text.old ++ field_text word.now field.now) }
{
    append_sizes(alloc, word, field, text)?;
    text.append(field.name.bytes())?;
    text.append(field.value.bytes())?;
    text.append(b"\n")
}

// Adds fields, in order.
fn append_fields(
    alloc: Global,
    word: &[u8],
    fields: &[Field],
    text: &mut Text,
) -> Result<(), Memory>
    ensures { OnOk result (text.new ≡ text.old ++ flat_map (field_text word.now) fields.now) }
{
    for field in fields {
        append_field(alloc, word, field, text)?;
    }
    Ok(())
}

// Adds the content.
fn append_content(alloc: Global, content: &[u8], text: &mut Text) -> Result<(), Memory>
    ensures { OnOk result (text.new ≡ text.old ++ content_text content.now) }
{
    append_line(alloc, b"content ", content.len(), text)?;
    text.append(content)?;
    text.append(b"\n")
}

/// The text of a list, which is the one that is read as it where it is within the limits.
pub fn print_fields(alloc: Global, list: &FieldList) -> Result<Text, Memory>
    ensures { IfOk result (λ text. text ≡ list_text list.now) }
{
    let mut text = Text::new(alloc);
    text.append(FIRST_LINE)?;
    append_fields(alloc, b"field ", list.fields.as_slice(), &mut text)?;
    append_content(alloc, list.content.bytes(), &mut text)?;
    append_fields(alloc, b"trailer ", list.trailers.as_slice(), &mut text)?;
    text.append(LAST_LINE)?;
    Ok(text)
}
