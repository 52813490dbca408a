//! The words of a line.

ghost use Rattle.std.specs.Prelude.{◌≡◌, ◌++◌, ◌∷◌, [], ℕ, None, Some, map, option_map, IfOk, MatchResult};
ghost use Rattle.std.specs.List.{list_all};
ghost use Rattle.std.specs.Str.{byte};
ghost use Rattle.rewrite_script.specs.Lines.{is_visible_query_byte, is_query_text};
ghost use Rattle.rewrite_script.specs.declared.fault.LineFault.TheVariants.{NotSpelled};
ghost use Rattle.rewrite_script.specs.tools.LineWalk.{cut_read, side_read, is_number_word, has_leading_zero, number_read, is_blank_letter, are_blank_letters, blank_of, blanks_read, name_read, text_read, lower_name_read, query_text_read, sizes_read, some_if};
ghost use Rattle.rewrite_script.specs.tools.Gives.{Gives};

use crate::fault::LineFault;
use crate::limits::{MAX_BLANKS, MAX_NUMBER_DIGITS};
use crate::rewrite::Sizes;
use byte_grammar::{
    Byte, ByteClass, Class, allows_all, is_field_name, is_token, number_of_digits, read_all,
    starts_with,
};
use msg_head::Side;
use sfv_text::{Memory, Text};
use std::alloc::Global;

/// The class of every byte but this one.
#[derive(Clone, Copy)]
struct AllBut(u8);

impl ByteClass for AllBut {
    ghost use Rattle.std.specs.Prelude.{◌==◌, not};

    ghost members = { λ b c. not (c == b.0) };

    fn allows(self, byte: u8) -> bool {
        byte != self.0
    }
}

/// The bytes before the first such byte, and those after it.
pub(crate) fn cut(end: u8, bytes: &[u8]) -> Option<(&[u8], &[u8])>
    ensures { option_map (λ x. (x.0.now, x.1.now)) result ≡ cut_read end bytes.now }
{
    let (prefix, rest) = read_all(AllBut(end), bytes);
    match rest.split_first() {
        None => None,
        Some((_, after)) => Some((prefix, after)),
    }
}

/// The word before the first SP, and what comes after that SP.
pub(crate) fn read_word(bytes: &[u8]) -> Result<(&[u8], &[u8]), LineFault>
    ensures { Gives (λ x. (x.0.now, x.1.now)) result (cut_read (byte " ") bytes.now) }
{
    match cut(b' ', bytes) {
        None => Err(LineFault::NotSpelled),
        Some(parts) => Ok(parts),
    }
}

/// The side that the word names.
pub(crate) fn side_of(word: &[u8]) -> Result<Side, LineFault>
    ensures { Gives (λ side. side) result (side_read word.now) }
{
    match word {
        b"h" => Ok(Side::Header),
        b"t" => Ok(Side::Trailer),
        _ => Err(LineFault::NotSpelled),
    }
}

/// Whether the first of several digits is zero.
fn has_leading_zero(word: &[u8]) -> bool
    ensures { result ≡ has_leading_zero word.now }
{
    word.len() > 1 && starts_with(Byte(b'0'), word)
}

/// Whether the word is a number.
fn is_number(word: &[u8]) -> bool
    ensures { result ≡ is_number_word word.now }
{
    !word.is_empty()
        && word.len() <= MAX_NUMBER_DIGITS
        && allows_all(Class::Digit, word)
        && !has_leading_zero(word)
}

/// The number that the word writes.
#[tactic(auto, unfolding(crate::specs::tools::LineWalk::number_read))]
pub(crate) fn number_of(word: &[u8]) -> Result<usize, LineFault>
    ensures { Gives (λ number. number) result (number_read word.now) }
{
    if !is_number(word) {
        return Err(LineFault::NotSpelled);
    }
    Ok(number_of_digits(word) as usize)
}

/// Whether the byte is the letter of a blank.
fn is_blank_letter(byte: u8) -> bool
    ensures { result ≡ is_blank_letter byte }
{
    byte == b's' || byte == b't'
}

fn are_letters(bytes: &[u8]) -> bool
    ensures { result ≡ list_all is_blank_letter bytes.now }
{
    bytes.iter().all(|byte| is_blank_letter(*byte))
}

/// Whether the word is made of letters of blanks.
fn are_blank_letters(word: &[u8]) -> bool
    ensures { result ≡ are_blank_letters word.now }
{
    !word.is_empty() && word.len() <= MAX_BLANKS && are_letters(word)
}

/// The blank of the letter.
fn blank_of(letter: u8) -> u8
    ensures { result ≡ blank_of letter }
{
    if letter == b's' { b' ' } else { b'\t' }
}

/// The blanks of the letters.
fn blanks_of_letters(alloc: Global, letters: &[u8]) -> Result<Text, Memory>
    ensures { IfOk result (λ blanks. blanks ≡ map blank_of letters.now) }
{
    let mut blanks = Text::new(alloc);
    for letter in letters {
        blanks.push(blank_of(*letter))?;
    }
    Ok(blanks)
}

/// The blanks that the word writes.
#[tactic(auto, unfolding(crate::specs::tools::LineWalk::blanks_read))]
pub(crate) fn blanks_of(alloc: Global, word: &[u8]) -> Result<Text, LineFault>
    ensures { Gives (λ blanks. blanks) result (blanks_read word.now) }
{
    if word == b"-".as_slice() {
        return Ok(Text::new(alloc));
    }
    if !are_blank_letters(word) {
        return Err(LineFault::NotSpelled);
    }
    Ok(blanks_of_letters(alloc, word)?)
}

/// The text of the bytes, where they are in its form.
pub(crate) fn text_where(alloc: Global, is_so: bool, bytes: &[u8]) -> Result<Text, LineFault>
    ensures { Gives (λ text. text) result (some_if is_so bytes.now) }
{
    if !is_so {
        return Err(LineFault::NotSpelled);
    }
    Ok(Text::from_bytes(alloc, bytes)?)
}

/// The field name that the word is (RFC 9110 section 5.1).
#[tactic(auto, unfolding(crate::specs::tools::LineWalk::name_read))]
pub(crate) fn name_of(alloc: Global, word: &[u8]) -> Result<Text, LineFault>
    ensures { Gives (λ name. name) result (name_read word.now) }
{
    text_where(alloc, is_token(word), word)
}

/// The text that the rest of a line is: any bytes but NUL, CR and LF.
#[tactic(auto, unfolding(crate::specs::tools::LineWalk::text_read))]
pub(crate) fn text_of(alloc: Global, rest: &[u8]) -> Result<Text, LineFault>
    ensures { Gives (λ text. text) result (text_read rest.now) }
{
    text_where(alloc, allows_all(Class::LineByte, rest), rest)
}

/// Adds the number that the word writes.
fn push_size(word: &[u8], sizes: &mut Sizes) -> Result<(), LineFault>
    ensures { MatchResult result
        (λ _. (n : ℕ) × (number_read word.now ≡ Some n) × (sizes.new ≡ sizes.old ++ n ∷ []))
        (λ fault. fault ≡ NotSpelled → number_read word.now ≡ None) }
{
    let size = number_of(word)?;
    Ok(sizes.push(size as u64)?)
}

/// Numbers, with SP between two of them.
#[tactic(auto, using(crate::proofs::SizeLaws::after_none, crate::proofs::SizeLaws::shorter_after, crate::proofs::SizeLaws::size_more, crate::proofs::SizeLaws::size_missing, crate::proofs::SizeLaws::last_size, crate::proofs::SizeLaws::no_last_size))]
pub(crate) fn sizes_of(alloc: Global, bytes: &[u8]) -> Result<Sizes, LineFault>
    ensures { Gives (λ sizes. sizes) result (sizes_read bytes.now) }
{
    let mut sizes = Sizes::new(alloc);
    let mut rest = bytes;
    'words: while let Some((word, after)) = cut(b' ', rest) {
        push_size(word, &mut sizes)?;
        rest = after;
    }
    push_size(rest, &mut sizes)?;
    Ok(sizes)
}

/// The field name in lower case that the word is.
#[tactic(auto, unfolding(crate::specs::tools::LineWalk::lower_name_read))]
pub(crate) fn lower_name_of(alloc: Global, word: &[u8]) -> Result<Text, LineFault>
    ensures { Gives (λ name. name) result (lower_name_read word.now) }
{
    text_where(alloc, is_field_name(word), word)
}

fn is_visible_query_byte(byte: u8) -> bool
    ensures { result ≡ is_visible_query_byte byte }
{
    Class::Visible.allows(byte) && byte != b'#'
}

fn are_query_bytes(bytes: &[u8]) -> bool
    ensures { result ≡ list_all is_visible_query_byte bytes.now }
{
    bytes.iter().all(|byte| is_visible_query_byte(*byte))
}

/// Whether the text is `?` and the bytes of a query.
fn is_query_text(text: &[u8]) -> bool
    ensures { result ≡ is_query_text text.now }
{
    starts_with(Byte(b'?'), text) && are_query_bytes(text)
}

/// The query, with its `?`, that the text is.
#[tactic(auto, unfolding(crate::specs::tools::LineWalk::query_text_read))]
pub(crate) fn query_text_of(alloc: Global, text: &[u8]) -> Result<Text, LineFault>
    ensures { Gives (λ query. query) result (query_text_read text.now) }
{
    text_where(alloc, is_query_text(text), text)
}
