//! The normal lines of a side, and the steps that lead to them.

ghost use Rattle.std.specs.Prelude.{◌≡◌, ◌++◌, List, IfOk, map};
ghost use Rattle.std.specs.List.{All};
ghost use Rattle.msg_body.specs.SameFields.{name_of};
ghost use Rattle.msg_body.specs.Views.{lines_on, message_of};
ghost use Rattle.msg_head.specs.Lines.{IsLine};
ghost use Rattle.msg_head.specs.Views.{field_line_of};
ghost use Rattle.normal_forms.specs.LineSteps.{MakeNormal};
ghost use Rattle.normal_forms.specs.NormalLines.{is_kept};
ghost use Rattle.normal_forms.specs.tools.Sides.{CleansLines, KeepsLines};
ghost use Rattle.rewrite_script.specs.declared.rewrite.LineRewrite.{LineRewrite};
ghost use Rattle.rewrite_script.specs.declared.rewrite.Rewrite.TheVariants.{Lines};

use crate::clean::push_cleanings;
use crate::join::join_lines;
use crate::line::NormalLine;
use component_ids::SigParams;
use line_rewrites::value_condition;
use msg_body::MessageView;
use msg_head::{LineView, Side};
use rewrite_script::{LineRewrite, Rewrite, Script};
use sfv_text::Memory;
use std::alloc::Global;

/// Whether the line stays.
fn is_kept(side: Side, line: LineView<'_>, params: &SigParams) -> bool
    ensures { result ≡ is_kept side params.now (name_of (field_line_of line.entry)) }
{
    !value_condition(side, line).is_met(params)
}

/// The lines of the side that stay, in order, and a step for each other, the last first.
fn kept_lines<'m>(
    alloc: Global,
    message: &MessageView<'m>,
    side: Side,
    params: &SigParams,
    steps: &mut Script,
) -> Result<Vec<LineView<'m>>, Memory>
    ensures { IfOk result (λ kept. KeepsLines side params.now
        (lines_on side (message_of message.now)) (map field_line_of kept.items)
        steps.old steps.new) }
{
    let mut left = message.line_count(side);
    let mut kept = Vec::with_capacity(alloc, left)?;
    'lines: while left > 0 {
        left -= 1;
        let line = message.line(side, left);
        if is_kept(side, line, params) {
            kept.push(line)?;
        } else {
            steps.push(Rewrite::Lines(LineRewrite::Remove { side, index: left }))?;
        }
    }
    kept.reverse();
    Ok(kept)
}

/// The lines, made clean, and the steps for it.
fn clean_lines<'m>(
    alloc: Global,
    side: Side,
    lines: &[LineView<'m>],
    steps: &mut Script,
) -> Result<Vec<NormalLine<'m>>, Memory>
    requires { All IsLine (map field_line_of lines.now) }
    ensures { IfOk result (λ clean. CleansLines side (map field_line_of lines.now) clean.items
        steps.old steps.new) }
{
    let mut clean = Vec::with_capacity(alloc, lines.len())?;
    for (index, line) in lines.iter().enumerate() {
        push_cleanings(alloc, side, index, *line, steps)?;
        let normal = NormalLine::of(alloc, *line)?;
        clean.push(normal)?;
    }
    Ok(clean)
}

/// The normal lines of the side for a signature of these parameters. The steps that lead to them
/// are added.
pub(crate) fn normal_lines<'m>(
    alloc: Global,
    message: &MessageView<'m>,
    side: Side,
    params: &SigParams,
    steps: &mut Script,
) -> Result<Vec<NormalLine<'m>>, Memory>
    requires { All IsLine (lines_on side (message_of message.now)) }
    ensures { IfOk result (λ lines. (made : List LineRewrite)
        × MakeNormal side params.now (lines_on side (message_of message.now)) made lines.items
        × (steps.new ≡ steps.old ++ map Lines made)) }
{
    let kept = kept_lines(alloc, message, side, params, steps)?;
    let mut lines = clean_lines(alloc, side, kept.as_slice(), steps)?;
    join_lines(alloc, side, params, &mut lines, steps)?;
    Ok(lines)
}
