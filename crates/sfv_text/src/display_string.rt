//! Display Strings as text (RFC 9651 section 4.1.11).

ghost use Rattle.std.specs.Prelude.{◌≡◌, ◌++◌, ◌<◌, length, IfSome, OnOk};
ghost use Rattle.std.specs.Char.{digit_char};
ghost use Rattle.std.specs.List.{flat_map, position};
ghost use Rattle.sfv_text.specs.Strict.{display_byte_text, display_text};
ghost use Rattle.sfv_text.specs.tools.Escapes.{is_encoded};

use byte_grammar::{Memory, Text};

/// Whether the byte comes as `%` and two hexadecimal digits.
fn is_encoded(byte: u8) -> bool
    ensures { result ≡ is_encoded byte }
{
    !matches!(byte, b' '..=b'~') || byte == b'%' || byte == b'"'
}

/// The lower-case hexadecimal digit of the number.
fn hex_digit(number: u8) -> u8
    requires { number < 16 }
    ensures { result ≡ digit_char number }
{
    if number < 10 {
        b'0' + number
    } else {
        b'a' + (number - 10)
    }
}

fn write_byte(byte: u8, text: &mut Text) -> Result<(), Memory>
    ensures { OnOk result (text.new ≡ text.old ++ display_byte_text byte) }
{
    if is_encoded(byte) {
        text.append(&[b'%', hex_digit(byte / 16), hex_digit(byte % 16)])
    } else {
        text.push(byte)
    }
}

/// The offset of the first byte that is encoded.
fn first_encoded(bytes: &[u8]) -> Option<usize>
    ensures is { result ≡ position is_encoded bytes.now }
    ensures within { IfSome result (λ offset. offset < length bytes.now) }
{
    bytes.iter().position(|byte| is_encoded(*byte))
}

/// The bytes before the first that is encoded, and the others.
#[tactic(auto, using(crate::proofs::EscapeLaws::unencoded_all, crate::proofs::EscapeLaws::unencoded_before))]
fn split_unencoded(bytes: &[u8]) -> (&[u8], &[u8])
    ensures parts { result.0.now ++ result.1.now ≡ bytes.now }
    ensures unencoded { flat_map display_byte_text result.0.now ≡ result.0.now }
{
    match first_encoded(bytes) {
        Some(offset) => bytes.split_at(offset),
        None => (bytes, &[]),
    }
}

/// Bytes that are not encoded are added as one piece.
fn write_bytes(bytes: &[u8], text: &mut Text) -> Result<(), Memory>
    ensures { OnOk result (text.new ≡ text.old ++ flat_map display_byte_text bytes.now) }
{
    let mut rest = bytes;
    loop {
        let (unencoded, others) = split_unencoded(rest);
        text.append(unencoded)?;
        let [byte, others @ ..] = others else {
            return Ok(());
        };
        write_byte(*byte, text)?;
        rest = others;
    }
}

pub(crate) fn write_display_string(bytes: &[u8], text: &mut Text) -> Result<(), Memory>
    ensures { OnOk result (text.new ≡ text.old ++ display_text bytes.now) }
{
    text.append(b"%\"")?;
    write_bytes(bytes, text)?;
    text.push(b'"')
}
