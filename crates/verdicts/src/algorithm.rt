//! The algorithm of a signature: rules 13 and 14.

ghost use Rattle.std.specs.Prelude.{◌≡◌, ◌≢◌, Some, IfOk, MatchResult};
ghost use Rattle.sfv_text.specs.Strict.{string_text};
ghost use Rattle.component_ids.specs.declared.params.SigParams.{SigParams};
ghost use Rattle.signatures.specs.Algorithms.{supported_algorithm};
ghost use Rattle.signatures.specs.declared.label.LabelFault.{LabelFault};
ghost use Rattle.signatures.specs.declared.place.Place.{Place};
ghost use Rattle.signatures.specs.tools.Answered.{SaysRule};
ghost use Rattle.verdicts.specs.Parameters.{alg_of};
ghost use Rattle.verdicts.specs.tools.Judged.{ExplainsAlgorithm, FailsByAlgorithm};

use component_ids::SigParams;
use sfv_text::{Memory, Params, Text, append_string_item};
use signatures::{LabelFault, Place, Rule, SUPPORTED_ALGORITHM, is_refused_algorithm};
use std::alloc::Global;

/// The strict text of a String of these characters (RFC 9651 section 4.1.6).
fn string_text(alloc: Global, characters: &[u8]) -> Result<Text, Memory>
    ensures { IfOk result (λ text. text ≡ string_text characters.now) }
{
    let mut text = Text::new(alloc);
    append_string_item(characters, &Params::new(alloc), &mut text)?;
    Ok(text)
}

/// The fault of a rule that fails at this name, where there was memory for it.
fn fault_at(rule: Rule, name: Result<Text, Memory>) -> LabelFault
    ensures { MatchResult name (λ text. result ≡ LabelFault.Rule rule (Place.Name text))
        (λ _. result ≡ LabelFault.Memory) }
{
    match name {
        Ok(name) => LabelFault::Rule(rule, Place::Name(name)),
        Err(_memory) => LabelFault::Memory,
    }
}

/// Why another algorithm than the supported one isn't accepted.
fn fault_of_algorithm(alloc: Global, alg: &[u8]) -> LabelFault
    requires { alg.now ≢ supported_algorithm }
    ensures { (params : SigParams) → alg_of params ≡ Some alg.now
        → SaysRule (FailsByAlgorithm params) result }
{
    if is_refused_algorithm(alg) {
        fault_at(Rule::AlgRefused, Text::from_bytes(alloc, alg))
    } else {
        fault_at(Rule::AlgUnknown, string_text(alloc, alg))
    }
}

/// Whether `alg` is absent or the supported algorithm: rules 13 and 14.
pub(crate) fn judge_algorithm(alloc: Global, params: &SigParams) -> Result<(), LabelFault>
    ensures { ExplainsAlgorithm params.now result }
{
    match params.params.string(b"alg") {
        Some(alg) if alg.bytes() != SUPPORTED_ALGORITHM => {
            Err(fault_of_algorithm(alloc, alg.bytes()))
        }
        _ => Ok(()),
    }
}
