//! Whether a signature permits a step.

ghost use Rattle.std.specs.Prelude.{ℕ, List, ◌↔◌, IsTrue, IfOk};
ghost use Rattle.component_values.specs.Context.{MessageContext, context_of};
ghost use Rattle.msg_body.specs.Messages.{Message};
ghost use Rattle.rewrite_script.specs.Lines.{HasValues, is_writable};
ghost use Rattle.rewrite_script.specs.declared.rewrite.Rewrite.{Rewrite};
ghost use Rattle.rewrites.specs.Conditions.{IsConditionOf, IsMetBy};
ghost use Rattle.rewrites.specs.Laws.{KeepsSignature};
ghost use Rattle.rewrites.specs.Permitted.{Permits};
ghost use Rattle.rewrites.specs.Steps.{Step};
ghost use Rattle.signatures.specs.Signatures.{HasSignature};

use component_ids::SigParams;
use component_values::Context;
use line_rewrites::{LineCondition, line_condition};
use rewrite_script::Rewrite;
use sfv_text::Memory;
use std::alloc::Global;
use whole_rewrites::{WholeCondition, whole_condition};

/// What a step asks of a signature that is to stay, where all is judged that rests on no signature:
/// made once for a message and a step, it is a look at the parameters of each label.
#[derive(Drop)]
pub enum StepCondition<'s> {
    Lines(LineCondition<'s>),
    Whole(WholeCondition<'s>),
}

impl<'s> StepCondition<'s> {
    /// What the step asks of a signature in the context's message. Whether it is applicable isn't
    /// asked.
    pub fn of(
        alloc: Global,
        context: &Context<'_, 's>,
        step: &'s Rewrite,
    ) -> Result<StepCondition<'s>, Memory>
        ensures { IfOk result (IsConditionOf (context_of context.now) step.now) }
    {
        match step {
            Rewrite::Lines(step) => {
                Ok(StepCondition::Lines(line_condition(context.message, step)))
            }
            Rewrite::Whole(step) => {
                let condition = whole_condition(alloc, context, step)?;
                Ok(StepCondition::Whole(condition))
            }
        }
    }

    /// Whether a signature of these parameters permits the step.
    pub fn is_met(&self, params: &SigParams) -> bool
        ensures met { IsTrue result ↔ IsMetBy params.now self.now }
        ensures is { (context : MessageContext) (step : Rewrite) (label : List ℕ)
            → IsConditionOf context step self.now
            → IsTrue result ↔ Permits context step label params.now }
        ensures keeps { (context : MessageContext) (step : Rewrite) (label : List ℕ)
            → IsConditionOf context step self.now → IsTrue (is_writable step)
            → IsTrue result → (tag : List ℕ) (after : Message) → HasValues step
            → HasSignature context.message label params.now tag → Step context step after
            → KeepsSignature context label params.now tag after }
    {
        match self {
            StepCondition::Lines(condition) => condition.is_met(params),
            StepCondition::Whole(condition) => condition.is_met(params),
        }
    }
}

/// Whether the label's signature in the context's message, which has these parameters, permits the
/// step. Whether it is applicable isn't asked.
pub fn permits(
    alloc: Global,
    context: &Context<'_, '_>,
    step: &Rewrite,
    label: &[u8],
    params: &SigParams,
) -> Result<bool, Memory>
    requires writable { IsTrue (is_writable step.now) }
    requires signature { (tag : List ℕ)
        × HasSignature (context_of context.now).message label.now params.now tag }
    ensures is { IfOk result (λ permitted. IsTrue permitted
        ↔ Permits (context_of context.now) step.now label.now params.now) }
    ensures keeps { IfOk result (λ permitted. IsTrue permitted → (tag : List ℕ) (after : Message)
        → HasValues step.now
        → HasSignature (context_of context.now).message label.now params.now tag
        → Step (context_of context.now) step.now after
        → KeepsSignature (context_of context.now) label.now params.now tag after) }
{
    let condition = StepCondition::of(alloc, context, step)?;
    Ok(condition.is_met(params))
}
