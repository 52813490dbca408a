//! The command `explain`: of two records of one message, the steps that lead both to messages that
//! are alike, and that the signature of a label permits, or the first covered field that differs
//! (RFC 9421 section 1.1).

ghost use Rattle.std.specs.Prelude.{◌≡◌, ◌<◌, ◌++◌, IfOk, OnOk, IsSomeAnd, IsTrue, length, slice_get};
ghost use Rattle.component_ids.specs.Identifiers.{is_id_in_range};
ghost use Rattle.component_ids.specs.SignatureParams.{are_sig_params_in_range};
ghost use Rattle.component_values.specs.Context.{HasWholeMessage, context_of, context_with};
ghost use Rattle.msg_body.specs.Views.{message_of};
ghost use Rattle.rewrite_script.specs.Scripts.{script_text};
ghost use Rattle.commands.specs.Explain.{differing_text, explained_text, IsDifference, ReportsExplanation};
ghost use Rattle.commands.specs.Outcome.{IfOutcome, ReadsNothing};
ghost use Rattle.commands.specs.declared.outcome.Outcome.TheVariants.{NotOk};
ghost use Rattle.commands.specs.tools.Explained.{HasCovered};

use crate::outcome::Outcome;
use component_ids::{ComponentId, SigParams, print_id};
use component_values::Context;
use intake::Stop;
use msg_body::MessageView;
use normal_forms::{Explained, explain};
use rewrite_script::{Rewrite, print_script};
use sfv_text::{Memory, Text, append_number, append_words};
use signatures::{LabelFault, read_label};
use std::alloc::Global;

/// Adds the lines of the steps.
fn append_script(alloc: Global, script: &[Rewrite], text: &mut Text) -> Result<(), Memory>
    ensures { OnOk result (text.new ≡ text.old ++ script_text script.now) }
{
    let lines = print_script(alloc, script)?;
    text.append(lines.bytes())
}

/// Adds how many steps lead from each of two messages to one that is like the other's, and the
/// steps.
fn append_explained(
    alloc: Global,
    first: &[Rewrite],
    second: &[Rewrite],
    text: &mut Text,
) -> Result<(), Memory>
    ensures { OnOk result (text.new ≡ text.old ++ explained_text first.now second.now) }
{
    append_number(alloc, b"explained ", first.len(), text)?;
    append_number(alloc, b" ", second.len(), text)?;
    text.append(b"\n")?;
    append_script(alloc, first, text)?;
    append_script(alloc, second, text)
}

/// How many steps lead from each of two messages to one that is like the other's, and the steps.
fn explained_text(alloc: Global, first: &[Rewrite], second: &[Rewrite]) -> Result<Text, Memory>
    ensures { IfOk result (λ text. text ≡ explained_text first.now second.now) }
{
    let mut text = Text::new(alloc);
    append_explained(alloc, first, second, &mut text)?;
    Ok(text)
}

/// The line of a component on which two messages don't agree.
fn differing_text(alloc: Global, id: &ComponentId) -> Result<Text, Memory>
    requires { IsTrue (is_id_in_range id.now) }
    ensures { IfOk result (λ text. text ≡ differing_text id.now) }
{
    let id = print_id(alloc, id)?;
    let mut text = Text::new(alloc);
    append_words(b"differs ", id.bytes(), &mut text)?;
    text.append(b"\n")?;
    Ok(text)
}

/// The line of the component of this index, of those that these parameters cover.
fn differing_outcome(alloc: Global, params: &SigParams, index: usize) -> Result<Outcome, Memory>
    requires in_range { IsTrue (are_sig_params_in_range params.now) }
    requires within { index < length params.now.ids }
    ensures { IfOk result (λ outcome. IsSomeAnd (slice_get params.now.ids index)
        (λ id. outcome ≡ NotOk (differing_text id))) }
{
    Ok(Outcome::NotOk(differing_text(alloc, params.ids.get(index))?))
}

/// The line of the component of this index, of those that the label's signature covers.
fn difference(
    alloc: Global,
    message: &MessageView<'_>,
    label: &[u8],
    index: usize,
) -> Result<Outcome, Memory>
    requires { HasCovered (message_of message.now) label.now index }
    ensures { IfOk result (IsDifference (message_of message.now) label.now index) }
{
    match read_label(alloc, message, label) {
        Ok(read) => {
            let outcome = differing_outcome(alloc, &read.params, index);
            drop(read);
            outcome
        }
        Err(LabelFault::Memory) => Err(Memory),
        Err(LabelFault::Rule(_, _)) => unreachable!(),
    }
}

/// The explanation of the context's message and the other one, two records of one message, for the
/// signature that the label has in them.
pub fn explain_outcome(
    alloc: Global,
    label: &str,
    other: &MessageView<'_>,
    context: &Context<'_, '_>,
) -> Result<Outcome, Stop>
    requires whole { HasWholeMessage (context_of context.now) }
    requires other_whole { HasWholeMessage
        (context_with (context_of context.now) (message_of other.now)) }
    ensures report { IfOutcome result
        (ReportsExplanation label.now (message_of other.now) (context_of context.now)) }
    ensures reads_nothing { ReadsNothing result }
{
    let second = Context {
        message: other,
        ..*context
    };
    match explain(alloc, context, &second, label.as_bytes())? {
        Explained::Same { first, second } => {
            let text = explained_text(alloc, first.as_slice(), second.as_slice())?;
            Ok(Outcome::Done(text))
        }
        Explained::Differs { index } => {
            Ok(difference(alloc, context.message, label.as_bytes(), index)?)
        }
    }
}
