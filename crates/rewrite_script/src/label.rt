//! The words of a signature: its label, its tag and its parameters.

ghost use Rattle.std.specs.Prelude.{◌≡◌, ℕ, List, IfOk, MatchOption};
ghost use Rattle.std.specs.List.{list_all};
ghost use Rattle.base64.specs.Engines.{standard};
ghost use Rattle.base64.specs.GeneralPurpose.{IsBytes, encode_of};
ghost use Rattle.rewrite_script.specs.Lines.{ends_in_space, is_base64_byte, is_list_text, HasValues, HasWholeValues, IsBase64, ReadsAsInner};
ghost use Rattle.rewrite_script.specs.tools.LineWalk.{key_read, tag_read, params_read};
ghost use Rattle.rewrite_script.specs.tools.Gives.{Gives, Decides};

use crate::argument::text_where;
use crate::fault::LineFault;
use crate::rewrite::{Rewrite, WholeRewrite};
use base64::DecodeAllocError;
use base64::engine::general_purpose::STANDARD;
use byte_grammar::{Byte, Class, allows_all, starts_with};
use sfv_read::{SfError, read_inner};
use sfv_text::{Memory, Text, is_key};
use std::alloc::Global;

/// The key that the word is (RFC 9651 section 3.1.2).
#[tactic(auto, unfolding(crate::specs::tools::LineWalk::key_read))]
pub(crate) fn key_of(alloc: Global, word: &[u8]) -> Result<Text, LineFault>
    ensures { Gives (λ key. key) result (key_read word.now) }
{
    text_where(alloc, is_key(word), word)
}

fn is_base64_byte(byte: u8) -> bool
    ensures { result ≡ is_base64_byte byte }
{
    byte.is_ascii_alphabetic() || byte.is_ascii_digit() || matches!(byte, b'+' | b'/' | b'=')
}

fn are_base64_bytes(bytes: &[u8]) -> bool
    ensures { result ≡ list_all is_base64_byte bytes.now }
{
    bytes.iter().all(|byte| is_base64_byte(*byte))
}

/// The tag that the word is, by its letters.
#[tactic(auto, unfolding(crate::specs::tools::LineWalk::tag_read))]
pub(crate) fn tag_of(alloc: Global, word: &[u8]) -> Result<Text, LineFault>
    ensures { Gives (λ tag. tag) result (tag_read word.now) }
{
    text_where(alloc, are_base64_bytes(word), word)
}

/// Whether the text's last byte is SP.
fn ends_in_space(text: &[u8]) -> bool
    ensures { result ≡ ends_in_space text.now }
{
    match text.split_last() {
        None => false,
        Some((last, _)) => *last == b' ',
    }
}

/// Whether the text begins with `(`, has no SP at its end, and breaks no line.
fn is_list_text(text: &[u8]) -> bool
    ensures { result ≡ is_list_text text.now }
{
    allows_all(Class::LineByte, text) && (starts_with(Byte(b'('), text) && !ends_in_space(text))
}

/// The parameters that the rest of the line is, by its bytes.
#[tactic(auto, unfolding(crate::specs::tools::LineWalk::params_read))]
pub(crate) fn params_of(alloc: Global, rest: &[u8]) -> Result<Text, LineFault>
    ensures { Gives (λ params. params) result (params_read rest.now) }
{
    text_where(alloc, is_list_text(rest), rest)
}

// ---- what they say

/// The bytes whose base64 the text is, with all its padding (RFC 4648 section 4).
fn decode(alloc: Global, text: &[u8]) -> Result<Option<Vec<u8>>, Memory>
    ensures { IfOk result (λ o. MatchOption o
        ((bytes : List ℕ) → IsBytes bytes → ¬ (text.now ≡ encode_of standard bytes))
        (λ v. IsBytes v.items × (text.now ≡ encode_of standard v.items))) }
{
    match STANDARD.decode(alloc, text) {
        Ok(bytes) => Ok(Some(bytes)),
        Err(DecodeAllocError::OutOfMemory) => Err(Memory),
        Err(DecodeAllocError::DecodeError(_)) => Ok(None),
    }
}

/// Whether the text is in base64, with all its padding.
#[tactic(auto, using(crate::proofs::ValueLaws::base64_is, crate::proofs::ValueLaws::base64_isnt))]
fn is_base64(alloc: Global, text: &[u8]) -> Result<bool, Memory>
    ensures { IfOk result (Decides (IsBase64 text.now)) }
{
    match decode(alloc, text)? {
        None => Ok(false),
        Some(_) => Ok(true),
    }
}

/// Whether the text reads as an Inner List (RFC 9651 section 3.1.1).
#[tactic(auto, using(crate::proofs::ValueLaws::inner_is, crate::proofs::ValueLaws::inner_isnt))]
fn reads_as_inner(alloc: Global, text: &[u8]) -> Result<bool, Memory>
    ensures { IfOk result (Decides (ReadsAsInner text.now)) }
{
    match read_inner(alloc, text) {
        Ok(_) => Ok(true),
        Err(SfError::Memory) => Err(Memory),
        Err(SfError::Syntax(_)) => Ok(false),
    }
}

/// Whether the tag is in base64 and the parameters are an Inner List.
fn has_label_values(alloc: Global, tag: &[u8], params: &[u8]) -> Result<bool, Memory>
    ensures { IfOk result (Decides (IsBase64 tag.now × ReadsAsInner params.now)) }
{
    if !is_base64(alloc, tag)? {
        return Ok(false);
    }
    reads_as_inner(alloc, params)
}

/// Whether the words of the rewriting of a whole message have values.
fn has_whole_values(alloc: Global, rewrite: &WholeRewrite) -> Result<bool, Memory>
    ensures { IfOk result (Decides (HasWholeValues rewrite.now)) }
{
    match rewrite {
        WholeRewrite::AddLabel {
            label: _,
            tag,
            params,
        } => has_label_values(alloc, tag.bytes(), params.bytes()),
        _ => Ok(true),
    }
}

/// Whether the words of the rewriting have values.
pub(crate) fn has_values(alloc: Global, rewrite: &Rewrite) -> Result<bool, Memory>
    ensures { IfOk result (Decides (HasValues rewrite.now)) }
{
    match rewrite {
        Rewrite::Lines(_) => Ok(true),
        Rewrite::Whole(whole) => has_whole_values(alloc, whole),
    }
}
