//! The values of the components that a signature covers.

ghost use Rattle.std.specs.Prelude.{◌≡◌, ℕ, map, length, IsTrue, IfOk, IfErr};
ghost use Rattle.byte_grammar.specs.Causes.{AnswersWhere};
ghost use Rattle.component_ids.specs.SignatureParams.{are_sig_params_in_range};
ghost use Rattle.derived_values.specs.declared.lack.Lack.{Lack};
ghost use Rattle.component_values.specs.Context.{context_of};
ghost use Rattle.component_values.specs.Faults.{HasIndexBelow};
ghost use Rattle.component_values.specs.Readings.{AreReadOf};
ghost use Rattle.component_values.specs.Values.{HaveValues, IsFirstLack};
ghost use Rattle.component_values.specs.tools.Rows.{planned_text};
ghost use Rattle.component_values.specs.tools.Answered.{ExplainsPrepared, IsFaultOf};

use crate::context::Context;
use crate::fault::{ValueFault, lack_fault};
use crate::field::component_plan;
use crate::plan::Plan;
use crate::prepared::Prepared;
use crate::readings::Readings;
use component_ids::{ComponentId, ParamsText, SigParams};
use sfv_text::Sequence;
use std::alloc::Global;

/// How the value of each component is fed, or the first that lacks one.
fn plans_of<'a, 'm>(
    alloc: Global,
    context: &Context<'a, 'm>,
    ids: &'a [ComponentId],
    readings: &mut Readings,
) -> Result<Sequence<Plan<'a, 'm>>, ValueFault>
    requires { AreReadOf (context_of context.now) readings.old }
    ensures ok { IfOk result (λ plans.
        HaveValues (context_of context.now) ids.now (map planned_text plans)) }
    ensures fault { IfErr result (λ fault.
        IsFaultOf (context_of context.now) ids.now fault) }
    ensures readings { AreReadOf (context_of context.now) readings.new }
{
    let mut plans = Sequence::with_capacity(alloc, ids.len())?;
    for id in ids {
        match component_plan(alloc, context, id, readings) {
            Ok(plan) => plans.push(plan)?,
            Err(why) => return Err(lack_fault(plans.len(), why)),
        }
    }
    Ok(plans)
}

/// The components that the signature parameters cover, or the first that lacks a value.
#[tactic(auto, using(crate::proofs::FirstLacks::kept_count))]
fn prepare_components<'a, 'm>(
    alloc: Global,
    context: &Context<'a, 'm>,
    params: &'a SigParams,
    readings: &mut Readings,
) -> Result<Prepared<'a, 'm>, ValueFault>
    requires in_range { IsTrue (are_sig_params_in_range params.now) }
    requires readings { AreReadOf (context_of context.now) readings.old }
    ensures explains { ExplainsPrepared (context_of context.now) params.now result }
    ensures readings { AreReadOf (context_of context.now) readings.new }
{
    let plans = plans_of(alloc, context, params.ids.as_slice(), readings)?;
    let text = ParamsText::of(alloc, params)?;
    Ok(Prepared {
        params,
        plans,
        text,
    })
}

/// Prepares the components that the signature parameters cover (RFC 9421 section 2.5), over what
/// was read of the context before. What is read now is added to it: so for all labels of a message
/// the query is read once, and a structured field once for `sf` and once for `key`.
#[tactic(auto, using(crate::proofs::FirstLacks::lacks_are, crate::proofs::FirstLacks::index_below))]
pub fn prepare_in<'a, 'm>(
    alloc: Global,
    context: &Context<'a, 'm>,
    params: &'a SigParams,
    readings: &mut Readings,
) -> Result<Prepared<'a, 'm>, ValueFault>
    requires in_range { IsTrue (are_sig_params_in_range params.now) }
    requires readings { AreReadOf (context_of context.now) readings.old }
    ensures params { IfOk result (λ prepared. prepared.params ≡ params.now) }
    ensures values { IfOk result (λ prepared.
        HaveValues (context_of context.now) params.now.ids prepared.values) }

    // The first lack is answered, and no other.
    ensures lacks { (index : ℕ) (lack : Lack) → AnswersWhere ValueFault.Memory result
        (ValueFault.Lacks index lack)
        (IsFirstLack (context_of context.now) params.now.ids index lack) }
    ensures index { IfErr result (HasIndexBelow (length params.now.ids)) }
    ensures readings { AreReadOf (context_of context.now) readings.new }
{
    prepare_components(alloc, context, params, readings)
}

/// Prepares the components that the signature parameters cover (RFC 9421 section 2.5).
pub fn prepare<'a, 'm>(
    alloc: Global,
    context: &Context<'a, 'm>,
    params: &'a SigParams,
) -> Result<Prepared<'a, 'm>, ValueFault>
    requires in_range { IsTrue (are_sig_params_in_range params.now) }
    ensures params { IfOk result (λ prepared. prepared.params ≡ params.now) }
    ensures values { IfOk result (λ prepared.
        HaveValues (context_of context.now) params.now.ids prepared.values) }

    // The first lack is answered, and no other.
    ensures lacks { (index : ℕ) (lack : Lack) → AnswersWhere ValueFault.Memory result
        (ValueFault.Lacks index lack)
        (IsFirstLack (context_of context.now) params.now.ids index lack) }
    ensures index { IfErr result (HasIndexBelow (length params.now.ids)) }
{
    let mut readings = Readings::new(alloc);
    prepare_in(alloc, context, params, &mut readings)
}
