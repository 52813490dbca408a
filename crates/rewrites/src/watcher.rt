//! Who goes along on a walk.

ghost use Rattle.std.specs.Prelude.{IsTrue, IfOk};
ghost use Rattle.component_values.specs.Context.{context_of};
ghost use Rattle.rewrite_script.specs.Lines.{is_writable};

use component_values::Context;
use rewrite_script::Rewrite;
use sfv_text::Memory;
use std::alloc::Global;

/// What a watcher says of a step on the message that it meets.
#[derive(Clone, Copy)]
pub enum Judgement {
    /// The walk goes on, where the step is applicable.
    Permitted,
    /// The walk ends after the step, where it is applicable.
    Forbidden,
    /// The watcher can't judge it. The walk ends before the step.
    Unjudged,
}

/// Goes along on a walk: it is handed each message that a step meets, and the step. Its meaning is
/// a relation between what it was before and after.
pub trait Watcher {
    ghost use Rattle.component_values.specs.Context.{MessageContext};
    ghost use Rattle.rewrite_script.specs.declared.rewrite.Rewrite.{Rewrite};
    ghost use Rattle.rewrites.specs.declared.watcher.Judgement.{Judgement};

    // The watcher judges the step on the context's message so, and becomes the other by it.
    ghost judges: { MessageContext → Rewrite → Self → Self → Judgement → Type 0 };

    /// Judges the step on the context's message. Whether it is applicable isn't known yet.
    fn meet(
        &mut self,
        alloc: Global,
        context: &Context<'_, '_>,
        step: &Rewrite,
    ) -> Result<Judgement, Memory>
        requires writable { IsTrue (is_writable step.now) }
        ensures { IfOk result (judges (context_of context.now) step.now self.old self.new) };
}
