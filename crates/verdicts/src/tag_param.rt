//! The parameter `tag` of a signature: rule 23.

ghost use Rattle.std.specs.Prelude.{◌≡◌, ◌↔◌, Some, IsTrue};
ghost use Rattle.signatures.specs.tools.Answered.{Explains};
ghost use Rattle.verdicts.specs.Parameters.{tag_param_of};
ghost use Rattle.verdicts.specs.tools.Judged.{FailsByTagParam, PassesTagParam};

use component_ids::SigParams;
use settings::Policy;
use signatures::{LabelFault, Place, Rule};

/// Whether `tag` is this.
fn has_tag_param(params: &SigParams, tag: &[u8]) -> bool
    ensures { IsTrue result ↔ (tag_param_of params.now ≡ Some tag.now) }
{
    match params.params.string(b"tag") {
        Some(own) => own.bytes() == tag,
        None => false,
    }
}

/// Whether `tag` is the configured one (RFC 9421 section 2.3): rule 23.
pub(crate) fn judge_tag_param(params: &SigParams, policy: &Policy) -> Result<(), LabelFault>
    ensures { Explains (λ _. PassesTagParam policy.now.tag (tag_param_of params.now))
        (FailsByTagParam policy.now.tag (tag_param_of params.now)) result }
{
    let Some(tag) = &policy.tag else {
        return Ok(());
    };
    if has_tag_param(params, tag.bytes()) {
        Ok(())
    } else {
        Err(LabelFault::Rule(Rule::TagWrong, Place::None))
    }
}
