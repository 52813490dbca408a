//! Whether the required components are covered.

ghost use Rattle.std.specs.Prelude.{◌≡◌, not, option_copied};
ghost use Rattle.std.specs.List.{All, find};
ghost use Rattle.component_ids.specs.Sameness.{is_same};
ghost use Rattle.signatures.specs.tools.Answered.{Explains};
ghost use Rattle.verdicts.specs.Policies.{IsCovered};
ghost use Rattle.verdicts.specs.tools.Judged.{is_covered, FailsByCoverage};

use component_ids::{ComponentId, same_id};
use signatures::{LabelFault, Place, Rule};
use std::alloc::Global;

fn is_same(a: &ComponentId, b: &ComponentId) -> bool
    ensures { result ≡ is_same a.now b.now }
{
    same_id(a, b)
}

/// Whether the component is the same as a covered one.
fn is_covered(covered: &[ComponentId], id: &ComponentId) -> bool
    ensures { result ≡ is_covered covered.now id.now }
{
    covered.iter().any(|own| is_same(own, id))
}

/// The first required component that isn't covered.
fn first_uncovered<'a>(
    covered: &[ComponentId],
    required: &'a [ComponentId],
) -> Option<&'a ComponentId>
    ensures { option_copied result ≡ find (λ id. not (is_covered covered.now id)) required.now }
{
    required.iter().find(|id| !is_covered(covered, id))
}

/// Whether the required components are covered (RFC 9421 section 7.2.1): rule 17.
pub(crate) fn judge_coverage(
    alloc: Global,
    covered: &[ComponentId],
    required: &[ComponentId],
) -> Result<(), LabelFault>
    ensures { Explains (λ _. All (IsCovered covered.now) required.now)
        (FailsByCoverage covered.now required.now) result }
{
    match first_uncovered(covered, required) {
        Some(id) => {
            let lacking = id.copy(alloc)?;
            Err(LabelFault::Rule(Rule::ComponentRequired, Place::Identifier(lacking)))
        }
        None => Ok(()),
    }
}
