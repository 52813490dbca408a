//! What the steps of a script make of a message, and which labels' signatures permit them.

ghost use Rattle.std.specs.Prelude.{◌↔◌, IsTrue, IsSomeAnd, IfOk};
ghost use Rattle.std.specs.List.{AllZip, list_all};
ghost use Rattle.component_values.specs.Context.{HasWholeMessage, MessageContext, context_of};
ghost use Rattle.rewrite_script.specs.Lines.{is_writable};
ghost use Rattle.rewrite_script.specs.Scripts.{HaveValues};
ghost use Rattle.rewrite_script.specs.declared.rewrite.Rewrite.{Rewrite};
ghost use Rattle.rewrites.specs.Conditions.{IsConditionOf};
ghost use Rattle.rewrites.specs.Permitted.{Permits};
ghost use Rattle.hop_audit.specs.tools.Walked.{HoldSignatures, IsMarkedBy, SaysWalked};

use component_values::Context;
use rewrite_script::Rewrite;
use rewrites::{Judgement, StepCondition, WalkFault, Watcher};
use sfv_text::{Memory, Text};
use signatures::LabelRead;
use std::alloc::Global;

/// A label of the message before a hop.
#[derive(Drop)]
pub(crate) struct Mark<'l> {
    pub(crate) label: &'l [u8],
    /// Its signature, where it has one.
    pub(crate) read: Option<&'l LabelRead>,
    /// Whether its signature has permitted each step so far.
    pub(crate) permitted: bool,
}

/// The labels of the message before a hop, which go along on the walk over its steps.
#[derive(Drop)]
pub(crate) struct Marks<'l> {
    pub(crate) marks: Vec<Mark<'l>>,
}

/// Where the steps of a script lead.
#[derive(Drop)]
pub(crate) enum Walked {
    /// To the message of these bytes.
    To(Text),
    /// The step of this index isn't applicable.
    Stopped(usize),
}

/// Whether the signature of the label still permits all, the step of this condition among it.
fn still_permits(condition: &StepCondition<'_>, mark: &Mark<'_>) -> bool
    ensures { (context : MessageContext) (step : Rewrite)
        → IsConditionOf context step condition.now → IsTrue result ↔ (IsTrue mark.now.permitted
        × IsSomeAnd mark.now.read (λ read.
        Permits context step mark.now.label.now read.now.params)) }
{
    if !mark.permitted {
        return false;
    }
    match mark.read {
        Some(read) => condition.is_met(&read.params),
        None => false,
    }
}

/// Marks each label whose signature doesn't permit the step of this condition.
fn mark_all(condition: &StepCondition<'_>, marks: &mut [Mark<'_>])
    ensures { (context : MessageContext) (step : Rewrite)
        → IsConditionOf context step condition.now
        → AllZip (IsMarkedBy context step) marks.old marks.new }
{
    for index in 0..marks.len() {
        marks[index].permitted = still_permits(condition, &marks[index]);
    }
}

impl Watcher for Marks<'_> {
    ghost use Rattle.hop_audit.specs.tools.Walked.{AreMarkedBy};

    ghost judges = { λ context step was now judgement. AreMarkedBy context step was now judgement };

    fn meet(
        &mut self,
        alloc: Global,
        context: &Context<'_, '_>,
        step: &Rewrite,
    ) -> Result<Judgement, Memory> {
        let condition = StepCondition::of(alloc, context, step)?;
        mark_all(&condition, &mut self.marks);
        drop(condition);
        Ok(Judgement::Permitted)
    }
}

/// Where the steps of the script lead from the context's message.
pub(crate) fn walk(
    alloc: Global,
    context: &Context<'_, '_>,
    script: &[Rewrite],
    marks: &mut Marks<'_>,
) -> Result<Walked, Memory>
    requires writable { IsTrue (list_all is_writable script.now) }
    requires values { HaveValues script.now }
    requires whole { HasWholeMessage (context_of context.now) }
    requires marks { HoldSignatures (context_of context.now).message marks.old.marks.items }
    ensures { IfOk result (SaysWalked (context_of context.now) script.now marks.old.marks.items
        marks.new.marks.items) }
{
    match rewrites::walk(alloc, context, script, marks) {
        Ok(text) => Ok(Walked::To(text)),
        Err(WalkFault::NotApplicable(index)) => Ok(Walked::Stopped(index)),
        Err(WalkFault::Memory) => Err(Memory),
        Err(WalkFault::Unjudged(_)) => unreachable!(),
        Err(WalkFault::NotPermitted(_)) => unreachable!(),
    }
}
