//! The parameters of a query, by name (RFC 9421 section 2.2.8).

ghost use Rattle.std.specs.Prelude.{◌≡◌, ℕ, List, [], ◌∷◌, ◌++◌, IfOk};
ghost use Rattle.std.specs.Str.{bytes_eq};
ghost use Rattle.derived_values.specs.Query.{decoded, encoded, matches, IsFound};
ghost use Rattle.derived_values.specs.Query.{HasPrintableEncodings, HasPrintableMatches};

use form_urlencoded::{decode, raw_pairs};
use percent_encoding::{AsciiSet, NON_ALPHANUMERIC, ascii_set, percent_encode};
use sfv_text::{Memory, Text};
use std::alloc::Global;

/// The bytes of ASCII that are written as percent triplets: all but letters, digits, `*`, `-`, `.`
/// and `_`. This is the application/x-www-form-urlencoded percent-encode set (WHATWG URL section
/// 1.3).
const FORM_SET: AsciiSet = ascii_set!(
    NON_ALPHANUMERIC
        .remove(b'*')
        .remove(b'-')
        .remove(b'.')
        .remove(b'_')
);

/// What a query has under a name.
#[derive(Drop)]
pub enum ParamFound {
    /// No pair has the name.
    None,
    /// One pair has the name, and this value, percent-encoded.
    One(Text),
    /// Two or more pairs have the name.
    Many,
}

/// The text that a name or a value of the query stands for, percent-encoded.
#[tactic(auto, using(crate::proofs::EncodingLaws::encoded_is))]
pub(crate) fn encode_again(alloc: Global, raw: &[u8]) -> Result<Text, Memory>
    ensures { IfOk result (λ text. text ≡ encoded (decoded raw.now)) }
{
    let text = decode(alloc, raw)?;
    let mut out = String::new(alloc);
    percent_encode(text.as_bytes(), FORM_SET).append_to(&mut out)?;
    Ok(Text::from_vec(out.into_bytes()))
}

/// Whether the name of a pair, as the query has it, is this one, which is percent-encoded.
fn has_param_name(alloc: Global, raw: &[u8], name: &[u8]) -> Result<bool, Memory>
    ensures { IfOk result (λ test. test ≡ bytes_eq (encoded (decoded raw.now)) name.now) }
{
    let encoded = encode_again(alloc, raw)?;
    Ok(encoded.bytes() == name)
}

/// What is found with one more value, as the query has it.
fn found_with(alloc: Global, found: ParamFound, raw: &[u8]) -> Result<ParamFound, Memory>
    ensures { (values : List (List ℕ)) → IsFound values found
        → IfOk result (IsFound (values ++ encoded (decoded raw.now) ∷ [])) }
{
    match found {
        ParamFound::None => Ok(ParamFound::One(encode_again(alloc, raw)?)),
        ParamFound::One(_) | ParamFound::Many => Ok(ParamFound::Many),
    }
}

/// Counts the pairs of the query (application/x-www-form-urlencoded, WHATWG URL section 5.1) whose
/// name is this one, and gives the value of the only one.
///
/// Names and values are decoded, with U+FFFD for what isn't UTF-8, and then percent-encoded: so
/// `name` is to be percent-encoded as the parameter `name` of `@query-param` is, and a name in any
/// other spelling is found nowhere.
pub fn query_param(alloc: Global, query: &[u8], name: &[u8]) -> Result<ParamFound, Memory>
    ensures { IfOk result (IsFound (matches query.now name.now)) }
{
    let mut found = ParamFound::None;
    for (raw_name, raw_value) in raw_pairs(query) {
        if has_param_name(alloc, raw_name, name)? {
            found = found_with(alloc, found, raw_value)?;
        }
    }
    Ok(found)
}

/// The law of percent-encoded texts: they are printable ASCII, so that no value of a query breaks
/// a line.
pub fn encoded_texts_are_printable()
    ensures text { HasPrintableEncodings }
    ensures values { HasPrintableMatches }
{}
