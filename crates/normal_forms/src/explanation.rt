//! Explanations of two records of one message.

ghost use Rattle.std.specs.Prelude.{◌≡◌, ◌≢◌, ℕ, List, IfOk};
ghost use Rattle.byte_grammar.specs.Causes.{AnswersWhere};
ghost use Rattle.component_values.specs.Context.{HasWholeMessage, answers_head, context_of, context_with};
ghost use Rattle.msg_body.specs.Messages.{Message};
ghost use Rattle.normal_forms.specs.Agreement.{AreOfOneBasis};
ghost use Rattle.normal_forms.specs.Causes.{IsExplainFault};
ghost use Rattle.normal_forms.specs.Explanations.{Explains};
ghost use Rattle.normal_forms.specs.Steps.{HasNormalSteps};
ghost use Rattle.normal_forms.specs.declared.fault.ExplainFault.{ExplainFault};
ghost use Rattle.normal_forms.specs.tools.Explained.{ExplainsMessages};
ghost use Rattle.signatures.specs.Signatures.{HasSignature};

use crate::agreement::{first_difference, first_other};
use crate::fault::ExplainFault;
use crate::normal::{first_unplain, normal_parts};
use component_ids::SigParams;
use component_values::Context;
use rewrite_script::Script;
use sfv_text::Memory;
use signatures::{LabelFault, read_label};
use std::alloc::Global;

/// What is said of two records of one message.
#[derive(Drop)]
pub enum Explained {
    /// They agree on all that is covered: these steps lead from each to a normal message, and the
    /// two are alike.
    Same { first: Script, second: Script },
    /// The covered component with this index is the first on which they don't agree.
    Differs { index: usize },
}

/// The steps that make the context's message normal.
fn normal_steps(
    alloc: Global,
    context: &Context<'_, '_>,
    params: &SigParams,
) -> Result<Script, Memory>
    requires { HasWholeMessage (context_of context.now) }
    ensures { IfOk result (λ steps. (normal : Message)
        × HasNormalSteps (answers_head (context_of context.now).related) params.now
        (context_of context.now).message steps normal) }
{
    Ok(normal_parts(alloc, context, params)?.steps)
}

/// How the two messages, which are of one basis, are explained for a signature of these parameters.
fn explain_for(
    alloc: Global,
    first: &Context<'_, '_>,
    second: &Context<'_, '_>,
    params: &SigParams,
) -> Result<Explained, Memory>
    requires first_whole { HasWholeMessage (context_of first.now) }
    requires second_whole { HasWholeMessage (context_of second.now) }
    requires same { context_of second.now
        ≡ context_with (context_of first.now) (context_of second.now).message }
    requires basis { AreOfOneBasis (context_of first.now).message (context_of second.now).message }
    ensures { (label tag : List ℕ)
        → HasSignature (context_of first.now).message label params.now tag
        → IfOk result (Explains (context_of first.now) (context_of second.now) label) }
{
    if let Some(index) = first_difference(first.message, second.message, params.ids.as_slice()) {
        return Ok(Explained::Differs { index });
    }
    Ok(Explained::Same {
        first: normal_steps(alloc, first, params)?,
        second: normal_steps(alloc, second, params)?,
    })
}

/// The explanation, or the first fault whose cause holds.
fn judge(
    alloc: Global,
    first: &Context<'_, '_>,
    second: &Context<'_, '_>,
    label: &[u8],
) -> Result<Explained, ExplainFault>
    requires first_whole { HasWholeMessage (context_of first.now) }
    requires second_whole { HasWholeMessage (context_of second.now) }
    requires same { context_of second.now
        ≡ context_with (context_of first.now) (context_of second.now).message }
    ensures { ExplainsMessages (context_of first.now) (context_of second.now) label.now result }
{
    let read = match read_label(alloc, first.message, label) {
        Ok(read) => read,
        Err(LabelFault::Memory) => return Err(ExplainFault::Memory),
        Err(LabelFault::Rule(_, _)) => return Err(ExplainFault::Unread),
    };
    if let Some(index) = first_unplain(&read.params) {
        return Err(ExplainFault::NotPlain(index));
    }
    if let Some(basis) = first_other(first.message, second.message) {
        return Err(ExplainFault::OtherBasis(basis));
    }
    let explained = explain_for(alloc, first, second, &read.params);
    drop(read);
    Ok(explained?)
}

/// How the messages of the two contexts, two records of one message, are explained for the label's
/// signature.
pub fn explain(
    alloc: Global,
    first: &Context<'_, '_>,
    second: &Context<'_, '_>,
    label: &[u8],
) -> Result<Explained, ExplainFault>
    requires first_whole { HasWholeMessage (context_of first.now) }
    requires second_whole { HasWholeMessage (context_of second.now) }
    requires same { context_of second.now
        ≡ context_with (context_of first.now) (context_of second.now).message }
    ensures ok { IfOk result
        (Explains (context_of first.now) (context_of second.now) label.now) }

    // The first fault whose cause holds is answered, and no other.
    ensures fault { (fault : ExplainFault) → fault ≢ ExplainFault.Memory
        → AnswersWhere ExplainFault.Memory result fault
        (IsExplainFault (context_of first.now) (context_of second.now) label.now fault) }
{
    judge(alloc, first, second, label)
}
