//! Bare items as text (RFC 9651 section 4.1.3.1).
//!
//! Each function adds its part at the end of the text.

ghost use Rattle.std.specs.Prelude.{◌≡◌, ◌++◌, ◌≤◌, ◌<◌, length, IfSome, OnOk};
ghost use Rattle.std.specs.Fmt.{decimal};
ghost use Rattle.std.specs.List.{flat_map, position};
ghost use Rattle.base64.specs.Engines.{standard};
ghost use Rattle.base64.specs.GeneralPurpose.{encode_of};
ghost use Rattle.sfv_text.specs.Strict.{sign_text, integer_text, fraction_text, decimal_text, character_text, string_text, bytes_text, bool_text, date_text, bare_text};
ghost use Rattle.sfv_text.specs.tools.Escapes.{is_escaped};

use crate::display_string::write_display_string;
use crate::value::BareItem;
use base64::engine::general_purpose::STANDARD;
use byte_grammar::{Memory, Text};

pub(crate) fn write_bare(bare: &BareItem, text: &mut Text) -> Result<(), Memory>
    ensures { OnOk result (text.new ≡ text.old ++ bare_text bare.now) }
{
    match bare {
        BareItem::Integer(value) => write_integer(*value, text),
        BareItem::Decimal(thousandths) => write_decimal(*thousandths, text),
        BareItem::Str(characters) => write_string(characters.bytes(), text),
        BareItem::Token(token) => text.append(token.bytes()),
        BareItem::Bytes(bytes) => write_bytes(bytes.bytes(), text),
        BareItem::Bool(value) => write_bool(*value, text),
        BareItem::Date(seconds) => write_date(*seconds, text),
        BareItem::Display(bytes) => write_display_string(bytes.bytes(), text),
    }
}

/// A number of 64 bits has at most so many digits.
const MAX_DIGITS: usize = 20;

#[tactic(auto, using(std::proofs::lemmas::Fmt::decimal_digit))]
fn write_number(value: u64, text: &mut Text) -> Result<(), Memory>
    ensures { OnOk result (text.new ≡ text.old ++ decimal value) }
{
    let mut digits = [b'0'; MAX_DIGITS];
    let mut last = MAX_DIGITS - 1;
    let mut left = value;
    'digits: while left >= 10 {
        digits[last] = b'0' + (left % 10) as u8;
        left /= 10;
        last -= 1;
    }
    digits[last] = b'0' + left as u8;
    text.append(&digits[last..])
}

fn write_sign(value: i64, text: &mut Text) -> Result<(), Memory>
    ensures { OnOk result (text.new ≡ text.old ++ sign_text value) }
{
    if value < 0 {
        return text.push(b'-');
    }
    Ok(())
}

fn write_integer(value: i64, text: &mut Text) -> Result<(), Memory>
    ensures { OnOk result (text.new ≡ text.old ++ integer_text value) }
{
    write_sign(value, text)?;
    write_number(value.unsigned_abs(), text)
}

/// The digits after the point.
fn write_fraction(thousandths: u64, text: &mut Text) -> Result<(), Memory>
    requires { thousandths < 1000 }
    ensures { OnOk result (text.new ≡ text.old ++ fraction_text thousandths) }
{
    let first = b'0' + (thousandths / 100) as u8;
    let second = b'0' + (thousandths / 10 % 10) as u8;
    let third = b'0' + (thousandths % 10) as u8;
    if thousandths % 100 == 0 {
        text.append(&[first])
    } else if thousandths % 10 == 0 {
        text.append(&[first, second])
    } else {
        text.append(&[first, second, third])
    }
}

fn write_decimal(thousandths: i64, text: &mut Text) -> Result<(), Memory>
    ensures { OnOk result (text.new ≡ text.old ++ decimal_text thousandths) }
{
    let size = thousandths.unsigned_abs();
    write_sign(thousandths, text)?;
    write_number(size / 1000, text)?;
    text.push(b'.')?;
    write_fraction(size % 1000, text)
}

/// Whether the character has a `\` before it in the text.
fn is_escaped(character: u8) -> bool
    ensures { result ≡ is_escaped character }
{
    character == b'"' || character == b'\\'
}

fn write_character(character: u8, text: &mut Text) -> Result<(), Memory>
    ensures { OnOk result (text.new ≡ text.old ++ character_text character) }
{
    if is_escaped(character) {
        text.append(&[b'\\', character])
    } else {
        text.push(character)
    }
}

/// The offset of the first character that is escaped.
fn first_escaped(characters: &[u8]) -> Option<usize>
    ensures is { result ≡ position is_escaped characters.now }
    ensures within { IfSome result (λ offset. offset < length characters.now) }
{
    characters
        .iter()
        .position(|character| is_escaped(*character))
}

/// The characters before the first that is escaped, and the others.
#[tactic(auto, using(crate::proofs::EscapeLaws::plain_all, crate::proofs::EscapeLaws::plain_before))]
fn split_plain(characters: &[u8]) -> (&[u8], &[u8])
    ensures parts { result.0.now ++ result.1.now ≡ characters.now }
    ensures plain { flat_map character_text result.0.now ≡ result.0.now }
{
    match first_escaped(characters) {
        Some(offset) => characters.split_at(offset),
        None => (characters, &[]),
    }
}

/// Characters that are not escaped are added as one piece.
fn write_characters(characters: &[u8], text: &mut Text) -> Result<(), Memory>
    ensures { OnOk result (text.new ≡ text.old ++ flat_map character_text characters.now) }
{
    let mut rest = characters;
    loop {
        let (plain, others) = split_plain(rest);
        text.append(plain)?;
        let [character, others @ ..] = others else {
            return Ok(());
        };
        write_character(*character, text)?;
        rest = others;
    }
}

pub(crate) fn write_string(characters: &[u8], text: &mut Text) -> Result<(), Memory>
    ensures { OnOk result (text.new ≡ text.old ++ string_text characters.now) }
{
    text.push(b'"')?;
    write_characters(characters, text)?;
    text.push(b'"')
}

/// Up to 48 bytes in base64, which are at most 64 symbols.
fn write_group(group: &[u8], text: &mut Text) -> Result<(), Memory>
    requires { length group.now ≤ 48 }
    ensures { OnOk result (text.new ≡ text.old ++ encode_of standard group.now) }
{
    let mut symbols = [0; 64];
    let Ok(count) = STANDARD.encode_slice(group, &mut symbols) else {
        unreachable!();
    };
    text.append(&symbols[..count])
}

/// All but the last group are a multiple of three bytes, so only the last may have padding.
fn write_base64(bytes: &[u8], text: &mut Text) -> Result<(), Memory>
    ensures { OnOk result (text.new ≡ text.old ++ encode_of standard bytes.now) }
{
    for group in bytes.chunks(48) {
        write_group(group, text)?;
    }
    Ok(())
}

fn write_bytes(bytes: &[u8], text: &mut Text) -> Result<(), Memory>
    ensures { OnOk result (text.new ≡ text.old ++ bytes_text bytes.now) }
{
    text.push(b':')?;
    write_base64(bytes, text)?;
    text.push(b':')
}

fn write_bool(value: bool, text: &mut Text) -> Result<(), Memory>
    ensures { OnOk result (text.new ≡ text.old ++ bool_text value) }
{
    text.append(if value { b"?1" } else { b"?0" })
}

fn write_date(seconds: i64, text: &mut Text) -> Result<(), Memory>
    ensures { OnOk result (text.new ≡ text.old ++ date_text seconds) }
{
    text.push(b'@')?;
    write_integer(seconds, text)
}
