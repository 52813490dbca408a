//! The message that a step gives.

ghost use Rattle.std.specs.Prelude.{◌≡◌, ℕ, List, IsTrue, IfOk, Err};
ghost use Rattle.byte_grammar.specs.Causes.{AnswersWhere};
ghost use Rattle.component_ids.specs.declared.params.SigParams.{SigParams};
ghost use Rattle.component_values.specs.Context.{HasWholeMessage, answers_head, context_of};
ghost use Rattle.msg_body.specs.Messages.{Message, Spells};
ghost use Rattle.rewrite_script.specs.Lines.{HasValues, is_writable};
ghost use Rattle.line_rewrites.specs.declared.fault.ApplyFault.{ApplyFault};
ghost use Rattle.rewrites.specs.Laws.{KeepsSignature};
ghost use Rattle.rewrites.specs.Permitted.{Permits};
ghost use Rattle.rewrites.specs.Steps.{IsNotApplicable, Rewrites, SpellsStep};
ghost use Rattle.rewrites.specs.tools.Judged.{ExplainsStep};
ghost use Rattle.signatures.specs.Signatures.{HasSignature};

use component_values::Context;
use line_rewrites::{ApplyFault, make_lines, sized_message};
use rewrite_script::Rewrite;
use sfv_text::Text;
use std::alloc::Global;
use whole_rewrites::make_whole;

/// The text that the step writes. It isn't read: the message that it spells, with as much content
/// as that of the context has, is what the step gives, and where it spells none the step isn't
/// applicable.
pub fn make(alloc: Global, context: &Context<'_, '_>, step: &Rewrite) -> Result<Text, ApplyFault>
    requires writable { IsTrue (is_writable step.now) }
    requires whole { HasWholeMessage (context_of context.now) }
    ensures ok { IfOk result (SpellsStep (context_of context.now) step.now) }
    ensures fault { result ≡ Err ApplyFault.NotApplicable
        → IsNotApplicable (context_of context.now) step.now }
{
    match step {
        Rewrite::Lines(step) => make_lines(alloc, context, step),
        Rewrite::Whole(step) => make_whole(alloc, context, step),
    }
}

// The answer to a step, by its cause.
fn judge(alloc: Global, context: &Context<'_, '_>, step: &Rewrite) -> Result<Text, ApplyFault>
    requires writable { IsTrue (is_writable step.now) }
    requires whole { HasWholeMessage (context_of context.now) }
    ensures { ExplainsStep (context_of context.now) step.now result }
{
    let text = match make(alloc, context, step) {
        Ok(text) => text,
        Err(fault) => return Err(fault),
    };
    let count = context.message.content_len();
    match sized_message(alloc, text.bytes(), context.answers_head(), count) {
        Ok(message) => drop(message),
        Err(fault) => return Err(fault),
    }
    Ok(text)
}

/// The message of the context after the step.
pub fn apply(alloc: Global, context: &Context<'_, '_>, step: &Rewrite) -> Result<Text, ApplyFault>
    requires writable { IsTrue (is_writable step.now) }
    requires whole { HasWholeMessage (context_of context.now) }
    ensures ok { IfOk result (Rewrites (context_of context.now) step.now) }
    ensures spells { IfOk result (λ text. (after : Message)
        × Spells (answers_head (context_of context.now).related) after text) }
    ensures keeps { IfOk result (λ text. (after : Message) (label : List ℕ) (params : SigParams)
        (tag : List ℕ) → Spells (answers_head (context_of context.now).related) after text
        → HasValues step.now → HasSignature (context_of context.now).message label params tag
        → Permits (context_of context.now) step.now label params
        → KeepsSignature (context_of context.now) label params tag after) }
    ensures fault { AnswersWhere ApplyFault.Memory result ApplyFault.NotApplicable
        (IsNotApplicable (context_of context.now) step.now) }
{
    judge(alloc, context, step)
}
