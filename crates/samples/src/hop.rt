//! A hop of a sample.

ghost use Rattle.std.specs.Prelude.{◌≡◌, false, IfOk, IsTrue};
ghost use Rattle.msg_body.specs.Messages.{IsMessage, Message, Spells};
ghost use Rattle.msg_body.specs.Views.{message_of};
ghost use Rattle.std.specs.List.{list_all};
ghost use Rattle.rewrite_script.specs.Lines.{is_writable};
ghost use Rattle.settings.specs.ConfMeaning.{meaning};
ghost use Rattle.rewrites.specs.Steps.{Step, Steps};
ghost use Rattle.samples.specs.Chains.{sample_context};
ghost use Rattle.samples.specs.Requests.{sample_configuration};
ghost use Rattle.samples.specs.tools.Made.{LeadsTo};

use crate::read_fault::only_memory;
use component_values::Context;
use msg_body::{MessageView, Reading, whole_message};
use rewrite_script::Rewrite;
use rewrites::{Judgement, WalkFault, Watcher, walk};
use settings::Conf;
use sfv_text::{Memory, Text};
use std::alloc::Global;
use verdicts::context_for;

/// The texts of a hop: its script, and the message that came out.
#[derive(Drop)]
pub(crate) struct MadeHop {
    pub(crate) script: Text,
    pub(crate) message: Text,
}

/// Goes along on a walk and lets each step pass.
#[derive(Drop)]
struct LetsPass;

impl Watcher for LetsPass {
    ghost use Rattle.std.specs.Prelude.{◌≡◌};
    ghost use Rattle.rewrites.specs.declared.watcher.Judgement.TheVariants.{Permitted};

    ghost judges = { λ context step was now judgement. judgement ≡ Permitted };

    fn meet(
        &mut self,
        _alloc: Global,
        _context: &Context<'_, '_>,
        _step: &Rewrite,
    ) -> Result<Judgement, Memory> {
        Ok(Judgement::Permitted)
    }
}

/// The message after the steps.
fn after_steps<'x>(
    alloc: Global,
    conf: &'x Conf,
    message: &'x MessageView<'_>,
    steps: &[Rewrite],
) -> Result<Text, Memory>
    requires conf { meaning conf.now ≡ sample_configuration }
    requires writable { IsTrue (list_all is_writable steps.now) }
    requires whole { IsMessage false (message_of message.now) }
    requires lead { (after : Message)
        × Steps Step (sample_context (message_of message.now)) steps.now after }
    ensures { IfOk result (LeadsTo (message_of message.now) steps.now) }
{
    let context = context_for(conf, message, None);
    let mut watcher = LetsPass;
    match walk(alloc, &context, steps, &mut watcher) {
        Ok(text) => Ok(text),
        Err(WalkFault::Memory) => Err(Memory),
        // the steps lead to a message, so each of them is applicable
        Err(WalkFault::NotApplicable(_)) => unreachable!(),
        Err(WalkFault::NotPermitted(_)) => unreachable!(),
        Err(WalkFault::Unjudged(_)) => unreachable!(),
    }
}

/// The message after the steps.
pub(crate) fn taken(
    alloc: Global,
    conf: &Conf,
    text: &Text,
    script: &[Rewrite],
) -> Result<Text, Memory>
    requires conf { meaning conf.now ≡ sample_configuration }
    requires writable { IsTrue (list_all is_writable script.now) }
    requires lead { (message : Message) × (after : Message) × Spells false message text.now
        × Steps Step (sample_context message) script.now after }
    ensures { (message : Message) → Spells false message text.now
        → IfOk result (LeadsTo message script.now) }
{
    match whole_message(alloc, Reading::of_any(), text.bytes()) {
        Ok(message) => after_steps(alloc, conf, &message, script),
        Err(fault) => Err(only_memory(fault)),
    }
}
