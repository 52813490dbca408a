//! Which signatures permit a rewriting of the whole message.

ghost use Rattle.std.specs.Prelude.{IfOk};
ghost use Rattle.component_values.specs.Context.{context_of};
ghost use Rattle.whole_rewrites.specs.Conditions.{IsWholeCondition};

use crate::condition::WholeCondition;
use crate::permit_field::{label_condition, strict_condition};
use crate::permit_target::{host_condition, origin_condition, query_condition};
use component_values::Context;
use rewrite_script::WholeRewrite;
use sfv_text::Memory;
use std::alloc::Global;

/// What the rewriting of the whole message of the context asks of a signature. Whether it is
/// applicable isn't asked.
pub fn whole_condition<'s>(
    alloc: Global,
    context: &Context<'_, '_>,
    step: &'s WholeRewrite,
) -> Result<WholeCondition<'s>, Memory>
    ensures { IfOk result (IsWholeCondition (context_of context.now) step.now) }
{
    match step {
        WholeRewrite::AddLabel { label, .. } => {
            label_condition(alloc, context.message, label.bytes())
        }
        WholeRewrite::Rechunk { .. } => Ok(WholeCondition::Always),
        WholeRewrite::Chunk { .. } => Ok(WholeCondition::FramingUncovered),
        WholeRewrite::Dechunk => Ok(WholeCondition::FramingUncovered),
        WholeRewrite::Origin => Ok(origin_condition(context)),
        WholeRewrite::Absolute => Ok(WholeCondition::TargetUncovered),
        WholeRewrite::Host { text } => Ok(host_condition(context, text.bytes())),
        WholeRewrite::Query { text } => query_condition(alloc, context.message, text),
        WholeRewrite::Resf { side, name } => Ok(strict_condition(*side, name.bytes())),
    }
}
