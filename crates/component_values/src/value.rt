//! The value of one component.

ghost use Rattle.std.specs.Prelude.{◌≡◌, MatchResult};
ghost use Rattle.component_values.specs.Context.{context_of};
ghost use Rattle.component_values.specs.Readings.{AreReadOf};
ghost use Rattle.component_values.specs.Values.{ComesTo};
ghost use Rattle.component_values.specs.tools.Rows.{planned_text};
ghost use Rattle.derived_values.specs.Answers.{AnswersRow};
ghost use Rattle.derived_values.specs.declared.lack.NoValue.TheVariants.{Memory as NoMemory};

use crate::context::Context;
use crate::field::component_plan;
use crate::plan::Plan;
use crate::readings::Readings;
use component_ids::ComponentId;
use derived_values::NoValue;
use sfv_text::{FedText, Text};
use std::alloc::Global;

/// The text that the plan feeds.
fn text_of(alloc: Global, plan: &Plan<'_, '_>) -> Result<Text, NoValue>
    ensures { MatchResult result (λ text. text ≡ planned_text plan.now) (λ why. why ≡ NoMemory) }
{
    let mut fed = FedText::new(alloc);
    plan.feed(&mut fed);
    Ok(fed.into_text()?)
}

/// The value of a component, or how it lacks one (RFC 9421 section 2.5). What is read for it is
/// kept among the readings.
pub fn component_text<'a>(
    alloc: Global,
    context: &Context<'a, '_>,
    id: &'a ComponentId,
    readings: &mut Readings,
) -> Result<Text, NoValue>
    requires { AreReadOf (context_of context.now) readings.old }
    ensures row { AnswersRow (ComesTo (context_of context.now) id.now) result }
    ensures readings { AreReadOf (context_of context.now) readings.new }
{
    let plan = component_plan(alloc, context, id, readings)?;
    text_of(alloc, &plan)
}
