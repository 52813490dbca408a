//! The command `rewrite`: the message after the steps of a script, as it may come to its recipient,
//! and whether the signature of a label permits each of them (RFC 9421 section 1.1).

ghost use Rattle.std.specs.Prelude.{ℕ, List, Some, option_map, IfOk, IsTrue};
ghost use Rattle.std.specs.List.{list_all};
ghost use Rattle.component_values.specs.Context.{HasWholeMessage, context_of};
ghost use Rattle.rewrite_script.specs.Lines.{is_writable};
ghost use Rattle.signatures.specs.Signatures.{HasSignature};
ghost use Rattle.commands.specs.Rewrite.{ReportsRewriting};
ghost use Rattle.commands.specs.Outcome.{IfOutcome, ReadsNothing};
ghost use Rattle.commands.specs.tools.Rewritten.{IsJudged};

use crate::outcome::Outcome;
use component_ids::SigParams;
use component_values::Context;
use intake::Stop;
use rewrite_script::Rewrite;
use rewrites::{Judgement, Watcher, permits, walk};
use sfv_text::Memory;
use signatures::{LabelFault, read_label};
use std::alloc::Global;

/// Judges a step by the label's signature, which has these parameters.
fn judge(
    alloc: Global,
    label: &[u8],
    context: &Context<'_, '_>,
    step: &Rewrite,
    params: &SigParams,
) -> Result<Judgement, Memory>
    requires writable { IsTrue (is_writable step.now) }
    requires signature { (tag : List ℕ)
        × HasSignature (context_of context.now).message label.now params.now tag }
    ensures { IfOk result (IsJudged (Some label.now) (context_of context.now) step.now) }
{
    if permits(alloc, context, step, label, params)? {
        Ok(Judgement::Permitted)
    } else {
        Ok(Judgement::Forbidden)
    }
}

/// Judges a step by the signature that the label has in the context's message.
fn judged_by(
    alloc: Global,
    label: &[u8],
    context: &Context<'_, '_>,
    step: &Rewrite,
) -> Result<Judgement, Memory>
    requires writable { IsTrue (is_writable step.now) }
    ensures { IfOk result (IsJudged (Some label.now) (context_of context.now) step.now) }
{
    match read_label(alloc, context.message, label) {
        Ok(read) => {
            let judgement = judge(alloc, label, context, step, &read.params);
            drop(read);
            judgement
        }
        Err(LabelFault::Rule(_, _)) => Ok(Judgement::Unjudged),
        Err(LabelFault::Memory) => Err(Memory),
    }
}

/// Judges steps by the signature of the given label. Where no label is given it permits them all.
#[derive(Drop)]
struct ByLabel<'l> {
    label: Option<&'l str>,
}

impl<'l> Watcher for ByLabel<'l> {
    ghost use Rattle.std.specs.Prelude.{◌≡◌, option_map};
    ghost use Rattle.commands.specs.tools.Rewritten.{IsJudged};

    ghost judges = { λ context step was now judgement. (now ≡ was)
        × IsJudged (option_map (λ word. word.now) was.label) context step judgement };

    fn meet(
        &mut self,
        alloc: Global,
        context: &Context<'_, '_>,
        step: &Rewrite,
    ) -> Result<Judgement, Memory> {
        match self.label {
            None => Ok(Judgement::Permitted),
            Some(label) => judged_by(alloc, label.as_bytes(), context, step),
        }
    }
}

/// The message of the context after the steps of the script, each taken on the message that the one
/// before it gave. Where a label is given, its signature in the message that a step meets has to
/// permit the step.
pub fn rewrite_outcome(
    alloc: Global,
    label: Option<&str>,
    script: &[Rewrite],
    context: &Context<'_, '_>,
) -> Result<Outcome, Stop>
    requires writable { IsTrue (list_all is_writable script.now) }
    requires whole { HasWholeMessage (context_of context.now) }
    ensures report { IfOutcome result (ReportsRewriting (option_map (λ word. word.now) label.entry)
        script.now (context_of context.now)) }
    ensures reads_nothing { ReadsNothing result }
{
    let mut judge = ByLabel { label };
    let text = walk(alloc, context, script, &mut judge)?;
    Ok(Outcome::Done(text))
}
