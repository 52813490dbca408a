//! The bytes of what a rewriting of the whole message makes.

ghost use Rattle.std.specs.Prelude.{IsTrue};
ghost use Rattle.component_values.specs.Context.{HasWholeMessage, context_of};
ghost use Rattle.rewrite_script.specs.Lines.{is_whole_writable};
ghost use Rattle.whole_rewrites.specs.tools.Judged.{Offers};

use crate::content::{chunked, dechunked, rechunked};
use crate::field::{in_strict_form, with_host};
use crate::label::with_label;
use crate::target::{in_absolute_form, in_origin_form, with_query};
use component_values::Context;
use line_rewrites::ApplyFault;
use rewrite_script::WholeRewrite;
use sfv_text::Text;
use std::alloc::Global;

/// The bytes of what the rewriting makes of the context's message. Whether they are a message
/// within the limits isn't asked.
pub(crate) fn made(
    alloc: Global,
    context: &Context<'_, '_>,
    step: &WholeRewrite,
) -> Result<Text, ApplyFault>
    requires writable { IsTrue (is_whole_writable step.now) }
    requires whole { HasWholeMessage (context_of context.now) }
    ensures { Offers (context_of context.now) step.now result }
{
    match step {
        WholeRewrite::AddLabel { label, tag, params } => {
            with_label(alloc, context, label.bytes(), tag.bytes(), params.bytes())
        }
        WholeRewrite::Rechunk { sizes } => rechunked(alloc, context, sizes),
        WholeRewrite::Chunk { sizes } => chunked(alloc, context, sizes),
        WholeRewrite::Dechunk => dechunked(alloc, context),
        WholeRewrite::Origin => in_origin_form(alloc, context),
        WholeRewrite::Absolute => in_absolute_form(alloc, context),
        WholeRewrite::Host { text } => with_host(alloc, context, text.bytes()),
        WholeRewrite::Query { text } => with_query(alloc, context, text),
        WholeRewrite::Resf { side, name } => { in_strict_form(alloc, context, *side, name.bytes()) }
    }
}
