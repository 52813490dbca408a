//! Byte Sequences (RFC 9651 section 3.3.5).

ghost use Rattle.std.specs.Prelude.{◌≡◌, ◌≤◌, false, length, IsTrue, IfOk, IfErr, MatchOption};
ghost use Rattle.std.specs.List.{list_all};
ghost use Rattle.base64.specs.GeneralPurpose.{IsBytes};
ghost use Rattle.byte_grammar.specs.Gives.{Gives};
ghost use Rattle.sfv_read.specs.declared.byte_sequence.TheConstants.{FEW_LETTERS};
ghost use Rattle.sfv_read.specs.declared.error.PartError.TheVariants.{Memory as NoMore};
ghost use Rattle.sfv_read.specs.tools.Gives.{GivesUnlessMemory};
ghost use Rattle.sfv_read.specs.Class.{is_base64};
ghost use Rattle.sfv_read.specs.tools.BareWalk.{bytes_of, are_whole, pads, padding_read, padding_end_read, letters_end_read, byte_sequence_read};

use crate::class::SfClass;
use crate::error::PartError;
use base64::DecodeAllocError;
use base64::engine::general_purpose::STANDARD_NO_PAD;
use byte_grammar::{Byte, Left, read_all, read_byte, read_run, starts_with};
use sfv_text::{Memory, Text};
use std::alloc::Global;

/// Reads letters between colons, with all of the `=` that fill their last group or none.
#[tactic(auto, unfolding(crate::specs::tools::BareWalk::byte_sequence_read))]
pub fn read_byte_sequence(alloc: Global, bytes: &[u8]) -> Result<(Text, &[u8]), PartError>
    ensures { GivesUnlessMemory (λ x. (x.0, x.1.now)) result (byte_sequence_read bytes.now) }
{
    let (_, rest) = read_byte(Byte(b':'), bytes)?;
    let (letters, rest) = read_all(SfClass::Base64, rest);
    read_letters_end(alloc, letters, rest)
}

/// The bytes of the letters, once the padding and the colon after them are read.
#[tactic(auto, unfolding(crate::specs::tools::BareWalk::letters_end_read, crate::specs::tools::BareWalk::padding_if_whole))]
fn read_letters_end<'a>(
    alloc: Global,
    letters: &[u8],
    bytes: &'a [u8],
) -> Result<(Text, &'a [u8]), PartError>
    requires { IsTrue (list_all is_base64 letters.now) }
    ensures { GivesUnlessMemory (λ x. (x.0, x.1.now)) result
        (letters_end_read letters.now bytes.now) }
{
    match decode(alloc, letters)? {
        None => Err(PartError::At(bytes.len())),
        Some(text) => {
            let (_, rest) = read_padding_end((4 - letters.len() % 4) % 4, bytes)?;
            Ok((text, rest))
        }
    }
}

/// Up to so many letters are decoded in place, to bytes that a text holds in place.
const FEW_LETTERS: usize = 48;

fn text_of(alloc: Global, bytes: &[u8]) -> Result<Text, Memory>
    ensures same { IfOk result (λ text. text ≡ bytes.now) }
    ensures bytes { IfOk result IsBytes }
{
    Ok(Text::from_bytes(alloc, bytes)?)
}

/// The bytes that a few letters spell, where they spell some.
fn decode_few(alloc: Global, letters: &[u8]) -> Result<Option<Text>, PartError>
    requires letters { IsTrue (list_all is_base64 letters.now) }
    requires few { length letters.now ≤ FEW_LETTERS }
    ensures ok { IfOk result (λ o. MatchOption o (are_whole letters.now ≡ false)
        (λ text. IsTrue (are_whole letters.now) × (text ≡ bytes_of letters.now))) }
    ensures err { IfErr result (λ e. e ≡ NoMore) }
{
    let mut bytes = [0; FEW_LETTERS / 4 * 3];
    match STANDARD_NO_PAD.decode_slice_unchecked(letters, &mut bytes) {
        Ok(count) => Ok(Some(text_of(alloc, &bytes[..count])?)),
        Err(_) => Ok(None),
    }
}

/// The bytes that letters spell, where they spell some: the last group is no single letter, and
/// its bits that no byte needs are zero.
fn decode(alloc: Global, letters: &[u8]) -> Result<Option<Text>, PartError>
    requires { IsTrue (list_all is_base64 letters.now) }
    ensures ok { IfOk result (λ o. MatchOption o (are_whole letters.now ≡ false)
        (λ text. IsTrue (are_whole letters.now) × (text ≡ bytes_of letters.now))) }
    ensures err { IfErr result (λ e. e ≡ NoMore) }
{
    if letters.len() <= FEW_LETTERS {
        return decode_few(alloc, letters);
    }
    match STANDARD_NO_PAD.decode(alloc, letters) {
        Ok(bytes) => Ok(Some(Text::from_vec(bytes))),
        Err(DecodeAllocError::OutOfMemory) => Err(PartError::Memory),
        Err(DecodeAllocError::DecodeError(_)) => Ok(None),
    }
}

#[tactic(auto, unfolding(crate::specs::tools::BareWalk::padding_end_read))]
fn read_padding_end(pads: usize, bytes: &[u8]) -> Result<(&[u8], &[u8]), Left>
    ensures { Gives (λ x. (x.0.now, x.1.now)) result (padding_end_read pads bytes.now) }
{
    let (padding, rest) = read_padding(pads, bytes)?;
    let (_, rest) = read_byte(Byte(b':'), rest)?;
    Ok((padding, rest))
}

/// Reads as many `=` as fill the last group, or none.
#[tactic(auto, unfolding(crate::specs::tools::BareWalk::padding_read, byte_grammar::specs::tools::Walks::optional_read))]
fn read_padding(pads: usize, bytes: &[u8]) -> Result<(&[u8], &[u8]), Left>
    ensures { Gives (λ x. (x.0.now, x.1.now)) result (padding_read pads bytes.now) }
{
    if pads == 0 {
        return Ok((&[], bytes));
    }
    if !starts_with(Byte(b'='), bytes) {
        return Ok((&[], bytes));
    }
    read_run(Byte(b'='), pads, pads, bytes)
}
