//! Display Strings (RFC 9651 section 3.3.8).

ghost use Rattle.std.specs.Prelude.{◌≡◌, ◌<◌, IfOk, IsTrue};
ghost use Rattle.std.specs.Str.{continuation_len};
ghost use Rattle.byte_grammar.specs.Gives.{Gives};
ghost use Rattle.sfv_read.specs.tools.Gives.{GivesUnlessMemory};
ghost use Rattle.sfv_read.specs.tools.DisplayWalk.{is_hex, hex_value, has_value, hex_members, hex_read, encoded_read, after_lead, after_first, any_digit, continuations_read, encoded_character_read, encoded_run_read, display_characters_read, display_string_read, appended};

use crate::class::SfClass;
use crate::error::PartError;
use byte_grammar::{Byte, ByteClass, Left, read_all, read_byte, starts_with};
use sfv_text::Text;
use std::alloc::Global;

/// Lower-case hexadecimal digits, by their values.
#[derive(Clone, Copy)]
pub enum HexDigits {
    /// What the first byte of a character has as its first digit: 0 to 7, or c to f.
    Lead,
    /// From one value to another.
    Between(u8, u8),
}

const ANY_DIGIT: HexDigits = HexDigits::Between(0, 0xF);

/// What a byte that goes on with a character has as its first digit.
const CONTINUATION: HexDigits = HexDigits::Between(8, 0xB);

impl HexDigits {
    fn has_value(self, value: u8) -> bool
        ensures { result ≡ has_value self value }
    {
        match self {
            HexDigits::Lead => value < 8 || value >= 0xC,
            HexDigits::Between(least, most) => least <= value && value <= most,
        }
    }
}

impl ByteClass for HexDigits {
    ghost members = { hex_members };

    fn allows(self, byte: u8) -> bool {
        is_hex(byte) && self.has_value(hex_value(byte))
    }
}

fn is_hex(byte: u8) -> bool
    ensures { result ≡ is_hex byte }
{
    matches!(byte, b'0'..=b'9' | b'a'..=b'f')
}

fn hex_value(digit: u8) -> u8
    requires { IsTrue (is_hex digit) }
    ensures value { result ≡ hex_value digit }
    ensures below { result < 16 }
{
    if digit.is_ascii_digit() {
        digit - b'0'
    } else {
        digit - (b'a' - 10)
    }
}

/// Reads characters between `%"` and `"`.
#[tactic(auto, unfolding(crate::specs::tools::DisplayWalk::display_string_read))]
pub fn read_display_string(alloc: Global, bytes: &[u8]) -> Result<(Text, &[u8]), PartError>
    ensures { GivesUnlessMemory (λ x. (x.0, x.1.now)) result (display_string_read bytes.now) }
{
    let (_, rest) = read_byte(Byte(b'%'), bytes)?;
    let (_, rest) = read_byte(Byte(b'"'), rest)?;
    let (text, rest) = read_characters(alloc, rest)?;
    let (_, rest) = read_byte(Byte(b'"'), rest)?;
    Ok((text, rest))
}

/// Reads characters up to the first byte that is none, a run at a time.
fn read_characters(alloc: Global, bytes: &[u8]) -> Result<(Text, &[u8]), PartError>
    ensures { GivesUnlessMemory (λ x. (x.0, x.1.now)) result (display_characters_read bytes.now) }
{
    let (first, after) = read_all(SfClass::Unencoded, bytes);
    let mut text = Text::from_bytes(alloc, first)?;
    let mut rest = after;
    'runs: while starts_with(Byte(b'%'), rest) {
        rest = append_run(rest, &mut text)?;
    }
    Ok((text, rest))
}

/// Adds an encoded character, and those after it that stand for themselves.
#[tactic(auto, unfolding(crate::specs::tools::DisplayWalk::encoded_run_read))]
fn append_run<'t>(bytes: &'t [u8], text: &mut Text) -> Result<&'t [u8], PartError>
    ensures { GivesUnlessMemory (λ rest. (text.new, rest.now)) result
        (appended text.old (encoded_run_read bytes.now)) }
{
    let rest = append_character(bytes, text)?;
    let (run, rest) = read_all(SfClass::Unencoded, rest);
    text.append(run)?;
    Ok(rest)
}

#[tactic(auto, unfolding(crate::specs::tools::DisplayWalk::encoded_character_read))]
fn append_character<'t>(bytes: &'t [u8], text: &mut Text) -> Result<&'t [u8], PartError>
    ensures { GivesUnlessMemory (λ rest. (text.new, rest.now)) result
        (appended text.old (encoded_character_read bytes.now)) }
{
    let (first, rest) = read_first(bytes)?;
    text.push(first)?;
    append_continuations(continuation_len(first), after_first(first), rest, text)
}

fn append_continuations<'t>(
    count: usize,
    firsts: HexDigits,
    bytes: &'t [u8],
    text: &mut Text,
) -> Result<&'t [u8], PartError>
    ensures { GivesUnlessMemory (λ rest. (text.new, rest.now)) result
        (appended text.old (continuations_read count firsts bytes.now)) }
{
    let mut firsts = firsts;
    let mut left = count;
    let mut rest = bytes;
    'bytes: while left > 0 {
        let (byte, after) = read_continuation(firsts, rest)?;
        text.push(byte)?;
        firsts = CONTINUATION;
        left -= 1;
        rest = after;
    }
    Ok(rest)
}

/// How many bytes come after the first byte of a character.
fn continuation_len(first: u8) -> usize
    ensures { result ≡ continuation_len first }
{
    match first {
        ..0x80 => 0,
        ..0xE0 => 1,
        ..0xF0 => 2,
        _ => 3,
    }
}

/// The first digit of the second byte of a character, after its first byte (RFC 3629 section 4).
fn after_first(first: u8) -> HexDigits
    ensures { result ≡ after_first first }
{
    match first {
        0xE0 => HexDigits::Between(0xA, 0xB),
        0xED => HexDigits::Between(8, 9),
        0xF0 => HexDigits::Between(9, 0xB),
        0xF4 => HexDigits::Between(8, 8),
        _ => CONTINUATION,
    }
}

/// The second digit of the first byte of a character, after its first digit (RFC 3629 section 4).
fn after_lead(lead: u8) -> HexDigits
    ensures { result ≡ after_lead lead }
{
    match lead {
        0xC => HexDigits::Between(2, 0xF),
        0xF => HexDigits::Between(0, 4),
        _ => ANY_DIGIT,
    }
}

#[tactic(auto, unfolding(crate::specs::tools::DisplayWalk::encoded_read))]
fn read_first(bytes: &[u8]) -> Result<(u8, &[u8]), Left>
    ensures { Gives (λ x. (x.0, x.1.now)) result
        (encoded_read HexDigits.Lead after_lead bytes.now) }
{
    let (_, rest) = read_byte(Byte(b'%'), bytes)?;
    let (high, rest) = read_hex(HexDigits::Lead, rest)?;
    let (low, rest) = read_hex(after_lead(high), rest)?;
    Ok((high * 16 + low, rest))
}

/// Reads a byte that goes on with a character.
#[tactic(auto, unfolding(crate::specs::tools::DisplayWalk::encoded_read))]
fn read_continuation(firsts: HexDigits, bytes: &[u8]) -> Result<(u8, &[u8]), Left>
    ensures { Gives (λ x. (x.0, x.1.now)) result (encoded_read firsts any_digit bytes.now) }
{
    let (_, rest) = read_byte(Byte(b'%'), bytes)?;
    let (high, rest) = read_hex(firsts, rest)?;
    let (low, rest) = read_hex(ANY_DIGIT, rest)?;
    Ok((high * 16 + low, rest))
}

#[tactic(auto, unfolding(crate::specs::tools::DisplayWalk::hex_read))]
fn read_hex(digits: HexDigits, bytes: &[u8]) -> Result<(u8, &[u8]), Left>
    ensures gives { Gives (λ x. (x.0, x.1.now)) result (hex_read digits bytes.now) }
    ensures below { IfOk result (λ x. x.0 < 16) }
{
    let (digit, rest) = read_byte(digits, bytes)?;
    Ok((hex_value(digit), rest))
}
