//! What becomes of an accepted message: the steps that its signature permits are taken, and what
//! comes out is signed.

ghost use Rattle.std.specs.Prelude.{◌≡◌, ◌≤◌, IfOk, IsTrue, MatchOption, Some, drop, length, option_copied};
ghost use Rattle.std.specs.List.{list_all};
ghost use Rattle.component_values.specs.Context.{HasWholeMessage, context_of, context_with};
ghost use Rattle.msg_body.specs.Views.{message_of};
ghost use Rattle.rewrite_script.specs.Lines.{is_writable};
ghost use Rattle.gateway.specs.tools.Walked.{HasSignatureOf, IsOfNone, SaysFirstMade, SaysMade, SpellsGiven};

use crate::accepted::AcceptedLabel;
use crate::own_signature::{Forwarded, sign_accepted};
use component_values::Context;
use line_rewrites::{ApplyFault, sized_message};
use msg_body::MessageView;
use rewrite_script::Rewrite;
use rewrites::{make, permits};
use settings::Conf;
use sfv_text::{Memory, Text};
use std::alloc::Global;

/// What a step made of the message that it met. Whether it is a message isn't known yet.
#[derive(Drop)]
struct Made {
    text: Text,
    /// How many steps were gone over, the one that made it among them.
    count: usize,
}

/// What comes of a message and the steps that are left.
#[derive(Drop)]
enum Met {
    /// A step made this of it.
    Made(Made),
    /// None makes anything of it. This becomes of it.
    Done(Forwarded),
}

/// What the step makes of the context's message, where the signature permits it.
fn made_by(
    alloc: Global,
    context: &Context<'_, '_>,
    accepted: &AcceptedLabel,
    step: &Rewrite,
) -> Result<Option<Text>, Memory>
    requires writable { IsTrue (is_writable step.now) }
    requires whole { HasWholeMessage (context_of context.now) }
    requires signature { HasSignatureOf accepted.now (context_of context.now).message }
    ensures { IfOk result (SaysMade accepted.now (context_of context.now) step.now) }
{
    let label = accepted.label.bytes();
    if !permits(alloc, context, step, label, &accepted.params)? {
        return Ok(None);
    }
    match make(alloc, context, step) {
        Ok(text) => Ok(Some(text)),
        Err(ApplyFault::NotApplicable) => Ok(None),
        Err(ApplyFault::Memory) => Err(Memory),
    }
}

/// What the first of the steps makes of the context's message that makes something of it.
fn first_made(
    alloc: Global,
    context: &Context<'_, '_>,
    accepted: &AcceptedLabel,
    steps: &[Rewrite],
) -> Result<Option<Made>, Memory>
    requires writable { IsTrue (list_all is_writable steps.now) }
    requires whole { HasWholeMessage (context_of context.now) }
    requires signature { HasSignatureOf accepted.now (context_of context.now).message }
    ensures { IfOk result (SaysFirstMade accepted.now (context_of context.now) steps.now) }
{
    for (index, step) in steps.iter().enumerate() {
        if let Some(text) = made_by(alloc, context, accepted, step)? {
            let count = index + 1;
            return Ok(Some(Made { text, count }));
        }
    }
    Ok(None)
}

/// The message of the text, which is to have as much content as the context's, where it is one.
fn message_made<'t>(
    alloc: Global,
    context: &Context<'_, '_>,
    text: &'t Text,
) -> Result<Option<MessageView<'t>>, Memory>
    ensures { IfOk result (λ message. MatchOption message
        (IsOfNone (context_of context.now) text.now)
        (λ view. SpellsGiven (context_of context.now) (Some text.now) (message_of view))) }
{
    let count = context.message.content_len();
    match sized_message(alloc, text.bytes(), context.answers_head(), count) {
        Ok(message) => Ok(Some(message)),
        Err(ApplyFault::NotApplicable) => Ok(None),
        Err(ApplyFault::Memory) => Err(Memory),
    }
}

fn steps_after(steps: &[Rewrite], count: usize) -> &[Rewrite]
    requires { count ≤ length steps.now }
    ensures { result.now ≡ drop count steps.now }
{
    &steps[count..]
}

/// What an accepted message is forwarded by.
#[derive(Clone, Copy)]
pub(crate) struct Forwarding<'a> {
    /// The configuration and the moment of the gateway's signature.
    pub(crate) conf: &'a Conf,
    pub(crate) moment: u64,
    /// The label by which the message was accepted.
    pub(crate) accepted: &'a AcceptedLabel,
}

impl<'a> Forwarding<'a> {
    ghost use Rattle.msg_body.specs.Messages.{Message};
    ghost use Rattle.rewrite_script.specs.Scripts.{HaveValues};
    ghost use Rattle.gateway.specs.tools.Walked.{CanSign, GoesOn, SaysAfterSteps, SaysMet, SaysMetText};

    /// What comes of the context's message and the steps.
    fn meet(
        &self,
        alloc: Global,
        context: &Context<'_, '_>,
        steps: &[Rewrite],
    ) -> Result<Met, Memory>
        requires writable { IsTrue (list_all is_writable steps.now) }
        requires whole { HasWholeMessage (context_of context.now) }
        requires signature { HasSignatureOf self.now.accepted.now (context_of context.now).message }
        requires sign { CanSign self.now }
        ensures { IfOk result (SaysMet self.now (context_of context.now) steps.now) }
    {
        match first_made(alloc, context, self.accepted, steps)? {
            Some(made) => Ok(Met::Made(made)),
            None => {
                let outcome = sign_accepted(alloc, self.conf, self.moment, context, self.accepted)?;
                Ok(Met::Done(outcome))
            }
        }
    }

    /// The same of the message of the text, or the text isn't that of one.
    fn meet_text(
        &self,
        alloc: Global,
        context: &Context<'_, '_>,
        text: &Text,
        steps: &[Rewrite],
    ) -> Result<Option<Met>, Memory>
        requires writable { IsTrue (list_all is_writable steps.now) }
        requires signature { (message : Message)
            → SpellsGiven (context_of context.now) (Some text.now) message
            → HasSignatureOf self.now.accepted.now message }
        requires sign { CanSign self.now }
        ensures { IfOk result
            (SaysMetText self.now (context_of context.now) text.now steps.now) }
    {
        let Some(message) = message_made(alloc, context, text)? else {
            return Ok(None);
        };
        let context = Context {
            message: &message,
            ..*context
        };
        Ok(Some(self.meet(alloc, &context, steps)?))
    }

    /// The same of the message that was given last: that of the text, or else the context's.
    fn meet_again(
        &self,
        alloc: Global,
        context: &Context<'_, '_>,
        given: Option<&Text>,
        steps: &[Rewrite],
    ) -> Result<Met, Memory>
        requires writable { IsTrue (list_all is_writable steps.now) }
        requires whole { HasWholeMessage (context_of context.now) }
        requires signature { (message : Message)
            × SpellsGiven (context_of context.now) (option_copied given) message
            × HasSignatureOf self.now.accepted.now message }
        requires sign { CanSign self.now }
        ensures { (message : Message)
            → SpellsGiven (context_of context.now) (option_copied given.entry) message
            → IfOk result
            (SaysMet self.now (context_with (context_of context.now) message) steps.now) }
    {
        let Some(text) = given else {
            return self.meet(alloc, context, steps);
        };
        match self.meet_text(alloc, context, text, steps)? {
            Some(met) => Ok(met),
            None => unreachable!(), // what was given is a message
        }
    }

    /// Goes on to what a step made of the last message. Where it is none, the step is left out.
    fn advance(
        &self,
        alloc: Global,
        context: &Context<'_, '_>,
        given: &mut Option<Text>,
        made: Text,
        steps: &[Rewrite],
    ) -> Result<Met, Memory>
        requires writable { IsTrue (list_all is_writable steps.now) }
        requires whole { HasWholeMessage (context_of context.now) }
        requires given { (message : Message)
            × SpellsGiven (context_of context.now) given.old message
            × HasSignatureOf self.now.accepted.now message }
        requires signature { (message : Message)
            → SpellsGiven (context_of context.now) (Some made) message
            → HasSignatureOf self.now.accepted.now message }
        requires sign { CanSign self.now }
        ensures { (message : Message)
            → SpellsGiven (context_of context.now) given.old message
            → IfOk result (GoesOn self.now (context_of context.now) steps.now message made
            given.new) }
    {
        if let Some(met) = self.meet_text(alloc, context, &made, steps)? {
            *given = Some(made);
            return Ok(met);
        }
        self.meet_again(alloc, context, given.as_ref(), steps)
    }

    /// What becomes of the context's message after the steps, each taken on the message that those
    /// before it gave, where the accepted signature permits it and it applies, and else left out.
    /// Each text that a step makes is read once, by the next step or to be signed.
    pub(crate) fn forward(
        &self,
        alloc: Global,
        context: &Context<'_, '_>,
        steps: &[Rewrite],
    ) -> Result<Forwarded, Memory>
        requires writable { IsTrue (list_all is_writable steps.now) }
        requires values { HaveValues steps.now }
        requires whole { HasWholeMessage (context_of context.now) }
        requires signature { HasSignatureOf self.now.accepted.now (context_of context.now).message }
        requires sign { CanSign self.now }
        ensures { IfOk result (SaysAfterSteps self.now (context_of context.now) steps.now) }
    {
        let mut given: Option<Text> = None;
        let mut left = steps;
        let mut met = self.meet(alloc, context, left)?;
        'steps: loop {
            let made = match met {
                Met::Made(made) => made,
                Met::Done(outcome) => return Ok(outcome),
            };
            left = steps_after(left, made.count);
            met = self.advance(alloc, context, &mut given, made.text, left)?;
        }
    }
}
