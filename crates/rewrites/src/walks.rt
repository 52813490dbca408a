//! Lists of steps, each taken on the message that the one before it gave.

ghost use Rattle.std.specs.Prelude.{◌+◌, ◌^◌, ◌<◌, IsTrue};
ghost use Rattle.std.specs.List.{list_all};
ghost use Rattle.component_values.specs.Context.{HasWholeMessage, answers_head, context_of};
ghost use Rattle.rewrite_script.specs.Lines.{is_writable};
ghost use Rattle.rewrites.specs.Walks.{ReportsWalk};
ghost use Rattle.rewrites.specs.tools.Walked.{SaysGiven, SaysMet, SaysNext, count_in};

use crate::fault::WalkFault;
use crate::step::make;
use crate::watcher::{Judgement, Watcher};
use component_values::Context;
use line_rewrites::{ApplyFault, sized_message};
use msg_body::MessageView;
use rewrite_script::Rewrite;
use sfv_text::Text;
use std::alloc::Global;

/// What a step made of the message that it met. Whether it is a message is known where it is read.
#[derive(Drop)]
struct Made {
    text: Text,
    judgement: Judgement,
}

/// What the step of this index makes of the context's message.
fn made_at<W: Watcher>(
    alloc: Global,
    context: &Context<'_, '_>,
    index: usize,
    step: &Rewrite,
    watcher: &mut W,
) -> Result<Made, WalkFault>
    requires writable { IsTrue (is_writable step.now) }
    requires whole { HasWholeMessage (context_of context.now) }
    ensures { SaysMet W.judges (context_of context.now) index step.now watcher.old watcher.new
        result }
{
    let judgement = watcher.meet(alloc, context, step)?;
    if let Judgement::Unjudged = judgement {
        return Err(WalkFault::Unjudged(index));
    }
    match make(alloc, context, step) {
        Ok(text) => Ok(Made { text, judgement }),
        Err(ApplyFault::NotApplicable) => Err(WalkFault::NotApplicable(index)),
        Err(ApplyFault::Memory) => Err(WalkFault::Memory),
    }
}

/// The message that the step of this index gave, where it isn't forbidden. Its content has as many
/// bytes as that of the context's message.
fn given<'t>(
    alloc: Global,
    context: &Context<'_, '_>,
    index: usize,
    made: &'t Made,
) -> Result<MessageView<'t>, WalkFault>
    ensures { SaysGiven (answers_head (context_of context.now).related)
        (count_in (context_of context.now)) index made.now result }
{
    let count = context.message.content_len();
    match sized_message(alloc, made.text.bytes(), context.answers_head(), count) {
        Ok(message) => match made.judgement {
            Judgement::Forbidden => Err(WalkFault::NotPermitted(index)),
            _ => Ok(message),
        },
        Err(ApplyFault::NotApplicable) => Err(WalkFault::NotApplicable(index)),
        Err(ApplyFault::Memory) => Err(WalkFault::Memory),
    }
}

/// What the step makes of the message that the one before it, of this index, gave.
fn made_after<W: Watcher>(
    alloc: Global,
    context: &Context<'_, '_>,
    made: &Made,
    index: usize,
    step: &Rewrite,
    watcher: &mut W,
) -> Result<Made, WalkFault>
    requires writable { IsTrue (is_writable step.now) }
    requires fits { index + 1 < 2 ^ 64 }
    ensures { SaysNext W.judges (context_of context.now) made.now index step.now watcher.old
        watcher.new result }
{
    let message = match given(alloc, context, index, made) {
        Ok(message) => message,
        Err(fault) => return Err(fault),
    };
    let context = Context {
        message: &message,
        ..*context
    };
    made_at(alloc, &context, index + 1, step, watcher)
}

/// The text of the message to which the steps lead from the context's message, each taken on the
/// message that the one before it gave.
///
/// Each text that a step makes is read once: that it is a message is the judgement of its step, and
/// the next step meets it. Where there are no steps the text is a copy of the message's.
pub fn walk<W: Watcher>(
    alloc: Global,
    context: &Context<'_, '_>,
    steps: &[Rewrite],
    watcher: &mut W,
) -> Result<Text, WalkFault>
    requires writable { IsTrue (list_all is_writable steps.now) }
    requires whole { HasWholeMessage (context_of context.now) }
    ensures { ReportsWalk W.judges (context_of context.now) watcher.old steps.now watcher.new
        result }
{
    let Some((first, others)) = steps.split_first() else {
        return Ok(Text::from_bytes(alloc, context.message.bytes())?);
    };
    let mut made = match made_at(alloc, context, 0, first, watcher) {
        Ok(made) => made,
        Err(fault) => return Err(fault),
    };
    for (index, step) in others.iter().enumerate() {
        made = match made_after(alloc, context, &made, index, step, watcher) {
            Ok(next) => next,
            Err(fault) => return Err(fault),
        };
    }
    match given(alloc, context, others.len(), &made) {
        Ok(message) => drop(message),
        Err(fault) => return Err(fault),
    }
    Ok(made.text)
}
