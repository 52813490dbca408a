//! The text that a step writes.

ghost use Rattle.std.specs.Prelude.{◌≡◌, IsTrue, IfOk, Err};
ghost use Rattle.component_values.specs.Context.{HasWholeMessage, context_of};
ghost use Rattle.rewrite_script.specs.Lines.{is_line_writable};
ghost use Rattle.line_rewrites.specs.Sized.{SpellsLineStep};
ghost use Rattle.line_rewrites.specs.Steps.{HasNoLineStep};

use crate::fault::ApplyFault;
use crate::write::rewritten;
use component_values::Context;
use rewrite_script::LineRewrite;
use sfv_text::Text;
use std::alloc::Global;

/// The text that the step writes. It isn't read: the message that it spells, with as much content
/// as that of the context has, is what the step gives, and where it spells none the step isn't
/// applicable.
pub fn make_lines(
    alloc: Global,
    context: &Context<'_, '_>,
    step: &LineRewrite,
) -> Result<Text, ApplyFault>
    requires writable { IsTrue (is_line_writable step.now) }
    requires whole { HasWholeMessage (context_of context.now) }
    ensures ok { IfOk result (SpellsLineStep (context_of context.now) step.now) }
    ensures fault { result ≡ Err ApplyFault.NotApplicable
        → HasNoLineStep (context_of context.now) step.now }
{
    rewritten(alloc, context.message, step)
}
