//! Signature parameters as text.

ghost use Rattle.std.specs.Prelude.{◌≡◌, ◌<◌, ◌++◌, ◌∷◌, [], List, ℕ, Some, map, length, slice_get, codes, IsTrue, IfOk, OnOk};
ghost use Rattle.std.specs.List.{join_by, list_all};
ghost use Rattle.sfv_text.specs.Range.{is_string_byte};
ghost use Rattle.component_ids.specs.Identifiers.{id_text};
ghost use Rattle.component_ids.specs.SignatureParams.{sig_params_text, are_sig_params_in_range};
ghost use Rattle.component_ids.specs.tools.Spans.{HasParts};

use crate::id::ComponentId;
use crate::params::SigParams;
use crate::print::append_id;
use sfv_text::{Memory, Text, append_params};
use std::alloc::Global;
use std::marker::Model;

/// The text of signature parameters mostly is no longer than so many bytes.
const MOSTLY: usize = 256;

/// Where an identifier is in the text of signature parameters, in offsets from its first byte.
#[derive(Clone, Copy)]
pub(crate) struct IdSpan {
    /// The offset of the first byte.
    begin: usize,
    /// The offset of the first byte after it.
    end: usize,
}

/// The strict text of signature parameters (RFC 9421 section 2.3), and where the text of each
/// covered identifier is in it. A contract sees the whole text, and those of the identifiers.
#[derive(Drop)]
pub struct ParamsText {
    text: Text,
    spans: Vec<IdSpan>,
}

impl Model for ParamsText {
    ghost use Rattle.std.specs.Prelude.{◌≡◌, true, map};
    ghost use Rattle.std.specs.List.{list_all};
    ghost use Rattle.component_ids.specs.Printed.{PrintedParams};
    ghost use Rattle.component_ids.specs.tools.Spans.{part_at, lies_in};

    ghost Value = { PrintedParams };

    ghost view = { λ p. record {
      whole = p.text;
      ids = map (part_at p.text) p.spans.items;
    } };

    ghost invariant = { λ p. list_all (lies_in p.text) p.spans.items ≡ true };
}

/// Adds the text of the identifier at the end, and where it is.
fn write_id(id: &ComponentId, text: &mut Text, spans: &mut Vec<IdSpan>) -> Result<(), Memory>
    ensures text { OnOk result (text.new ≡ text.old ++ id_text id.now) }
    ensures parts { OnOk result ((parts : List (List ℕ)) → HasParts text.old spans.old.items parts
        → HasParts text.new spans.new.items (parts ++ id_text id.now ∷ [])) }
{
    let begin = text.bytes().len();
    append_id(id, text)?;
    let end = text.bytes().len();
    spans.push(IdSpan { begin, end })?;
    Ok(())
}

/// Adds the texts of the identifiers at the end, with a space between each two, and answers where
/// they are.
fn write_ids(alloc: Global, ids: &[ComponentId], text: &mut Text) -> Result<Vec<IdSpan>, Memory>
    ensures text { OnOk result (text.new ≡ text.old ++ join_by id_text (codes " ") ids.now) }
    ensures parts { IfOk result (λ spans.
        HasParts text.new spans.items (map id_text ids.now)) }
{
    let mut spans = Vec::with_capacity(alloc, ids.len())?;
    let [first, others @ ..] = ids else {
        return Ok(spans);
    };
    write_id(first, text, &mut spans)?;
    for id in others {
        text.push(b' ')?;
        write_id(id, text, &mut spans)?;
    }
    Ok(spans)
}

/// Adds the text of the signature parameters at the end, and answers where the identifiers are.
#[tactic(auto, using(crate::proofs::PrintLaws::text_of_parts))]
fn write_params(alloc: Global, params: &SigParams, text: &mut Text) -> Result<Vec<IdSpan>, Memory>
    ensures text { OnOk result (text.new ≡ text.old ++ sig_params_text params.now) }
    ensures parts { IfOk result (λ spans.
        HasParts text.new spans.items (map id_text params.now.ids)) }
{
    text.push(b'(')?;
    let spans = write_ids(alloc, params.ids.as_slice(), text)?;
    text.push(b')')?;
    append_params(&params.params, text)?;
    Ok(spans)
}

impl ParamsText {
    /// The strict text of these signature parameters, as a signature base ends.
    #[tactic(auto, using(crate::proofs::PrintLaws::params_are_printable))]
    pub fn of(alloc: Global, params: &SigParams) -> Result<ParamsText, Memory>
        requires { IsTrue (are_sig_params_in_range params.now) }
        ensures whole { IfOk result (λ text. text.whole ≡ sig_params_text params.now) }
        ensures ids { IfOk result (λ text. text.ids ≡ map id_text params.now.ids) }
        ensures printable { IfOk result (λ text. IsTrue (list_all is_string_byte text.whole)) }
    {
        let mut text = Text::with_capacity(alloc, MOSTLY)?;
        let spans = write_params(alloc, params, &mut text)?;
        Ok(ParamsText { text, spans })
    }

    /// The whole text.
    pub fn text(&self) -> &[u8]
        ensures { result.now ≡ self.now.whole }
    {
        self.text.bytes()
    }

    /// The text of the identifier at the index (RFC 9421 section 2.5), as a line of a signature
    /// base begins.
    pub fn id_text(&self, index: usize) -> &[u8]
        requires { index < length self.now.ids }
        ensures { slice_get self.now.ids index ≡ Some result.now }
    {
        let span = self.spans[index];
        &self.text.bytes()[span.begin..span.end]
    }
}

/// The strict text of signature parameters (RFC 9421 section 2.3), as a signature base ends.
pub fn print_params(alloc: Global, params: &SigParams) -> Result<Text, Memory>
    requires { IsTrue (are_sig_params_in_range params.now) }
    ensures is { IfOk result (λ text. text ≡ sig_params_text params.now) }
    ensures printable { IfOk result (λ text. IsTrue (list_all is_string_byte text)) }
{
    Ok(ParamsText::of(alloc, params)?.text)
}
