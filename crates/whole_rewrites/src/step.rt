//! The message that a rewriting of the whole message gives.

ghost use Rattle.std.specs.Prelude.{◌≡◌, IsTrue, IfOk, Err};
ghost use Rattle.component_values.specs.Context.{HasWholeMessage, context_of};
ghost use Rattle.rewrite_script.specs.Lines.{is_whole_writable};
ghost use Rattle.line_rewrites.specs.declared.fault.ApplyFault.{ApplyFault};
ghost use Rattle.whole_rewrites.specs.Steps.{GivesNoWhole, SpellsWhole};

use crate::write::made;
use component_values::Context;
use line_rewrites::ApplyFault;
use rewrite_script::WholeRewrite;
use sfv_text::Text;
use std::alloc::Global;

/// The text that the rewriting writes. It isn't read: the message that it spells, with as much
/// content as that of the context has, is what the rewriting gives, and where it spells none the
/// rewriting isn't applicable.
pub fn make_whole(
    alloc: Global,
    context: &Context<'_, '_>,
    step: &WholeRewrite,
) -> Result<Text, ApplyFault>
    requires writable { IsTrue (is_whole_writable step.now) }
    requires whole { HasWholeMessage (context_of context.now) }
    ensures ok { IfOk result (SpellsWhole (context_of context.now) step.now) }
    ensures fault { result ≡ Err ApplyFault.NotApplicable
        → GivesNoWhole (context_of context.now) step.now }
{
    made(alloc, context, step)
}
