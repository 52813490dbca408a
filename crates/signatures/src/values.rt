//! The values of components of a held context.

ghost use Rattle.std.specs.Prelude.{◌≡◌, ◌++◌, ℕ, List, length, IsTrue, IfErr, IfOk, OnErr};
ghost use Rattle.byte_grammar.specs.Causes.{AnswersWhere};
ghost use Rattle.component_ids.specs.SignatureParams.{are_sig_params_in_range};
ghost use Rattle.derived_values.specs.Answers.{AnswersRow};
ghost use Rattle.derived_values.specs.declared.lack.Lack.{Lack};
ghost use Rattle.component_values.specs.Faults.{HasIndexBelow};
ghost use Rattle.component_values.specs.Readings.{AreReadOf};
ghost use Rattle.component_values.specs.Values.{ComesTo, HaveValues, IsFirstLack};
ghost use Rattle.signatures.specs.SignatureBase.{signature_base};
ghost use Rattle.signatures.specs.tools.Held.{held_context};

use crate::base::feed_base;
use crate::held::HeldContext;
use component_ids::{ComponentId, SigParams};
use component_values::{NoValue, Readings, ValueFault, component_text, prepare_in};
use sfv_text::{Absorb, Text};
use std::alloc::Global;

/// Feeds the signature base of the components that the signature parameters cover.
pub(crate) fn feed_base_in<'h, 'm, A: Absorb>(
    alloc: Global,
    held: &'h HeldContext<'_, 'm>,
    params: &'h SigParams,
    values: &mut Readings,
    into: &mut A,
) -> Result<(), ValueFault>
    requires in_range { IsTrue (are_sig_params_in_range params.now) }
    requires values { AreReadOf (held_context held.now) values.old }
    ensures base { IfOk result (λ _. (texts : List (List ℕ))
        × HaveValues (held_context held.now) params.now.ids texts
        × ((text : List ℕ) → A.absorbed into.old text
        → A.absorbed into.new (text ++ signature_base params.now texts))) }
    ensures unfed { OnErr result (into.new ≡ into.old) }
    ensures lacks { (index : ℕ) (lack : Lack) → AnswersWhere ValueFault.Memory result
        (ValueFault.Lacks index lack)
        (IsFirstLack (held_context held.now) params.now.ids index lack) }
    ensures index { IfErr result (HasIndexBelow (length params.now.ids)) }
    ensures values { AreReadOf (held_context held.now) values.new }
{
    let context = held.context();
    let prepared = prepare_in(alloc, &context, params, values)?;
    feed_base(&prepared, into);
    Ok(())
}

/// The value of a component, or how it lacks one.
pub(crate) fn text_in<'h>(
    alloc: Global,
    held: &'h HeldContext<'_, '_>,
    id: &'h ComponentId,
    values: &mut Readings,
) -> Result<Text, NoValue>
    requires { AreReadOf (held_context held.now) values.old }
    ensures row { AnswersRow (ComesTo (held_context held.now) id.now) result }
    ensures values { AreReadOf (held_context held.now) values.new }
{
    let context = held.context();
    component_text(alloc, &context, id, values)
}
