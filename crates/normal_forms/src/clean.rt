//! Steps that make one line clean.

ghost use Rattle.std.specs.Prelude.{◌≡◌, ◌++◌, [], OnOk, map, position};
ghost use Rattle.msg_head.specs.RawValues.{IsRaw};
ghost use Rattle.msg_head.specs.Views.{field_line_of};
ghost use Rattle.normal_forms.specs.tools.Lines.{CleansLine, case_steps, clean_line, has_outer_spacing, is_lowered, is_return, trim_steps};
ghost use Rattle.normal_forms.specs.tools.Sides.{Leads, UnfoldsAll};
ghost use Rattle.rewrite_script.specs.declared.rewrite.LineRewrite.TheVariants.{Pad};
ghost use Rattle.rewrite_script.specs.declared.rewrite.Rewrite.TheVariants.{Lines};

use crate::line::append_lowered;
use line_rewrites::{is_spacing, without_first_spacing, without_last_spacing};
use msg_head::{LineView, Side};
use rewrite_script::{LineRewrite, Rewrite, Script};
use sfv_text::{Memory, Text};
use std::alloc::Global;

/// Whether no letter of the name is in upper case.
fn is_lowered(name: &[u8]) -> bool
    ensures { result ≡ is_lowered name.now }
{
    name.iter().all(|byte| byte.to_ascii_lowercase() == *byte)
}

/// Adds the step that puts the name of the line with the index in lower case, where it isn't.
fn push_case(
    alloc: Global,
    side: Side,
    index: usize,
    name: &[u8],
    steps: &mut Script,
) -> Result<(), Memory>
    ensures { OnOk result (steps.new
        ≡ steps.old ++ map Lines (case_steps side index name.now)) }
{
    if is_lowered(name) {
        return Ok(());
    }
    let mut lowered = Text::with_capacity(alloc, name.len())?;
    append_lowered(name, &mut lowered)?;
    steps.push(Rewrite::Lines(LineRewrite::Case {
        side,
        index,
        name: lowered,
    }))
}

/// The offset of the first CR.
fn first_fold(raw: &[u8]) -> Option<usize>
    ensures { result ≡ position is_return raw.now }
{
    raw.iter().position(|byte| *byte == b'\r')
}

/// Adds a step for each fold of the raw value of the line with the index, and the spacing around
/// it.
fn push_unfolds(side: Side, index: usize, raw: &[u8], steps: &mut Script) -> Result<(), Memory>
    requires { IsRaw raw.now }
    ensures { OnOk result (UnfoldsAll side index raw.now steps.old steps.new) }
{
    // So many bytes come before the rest, the folds in them taken away.
    let mut done = 0;
    let mut rest = raw;
    'folds: while let Some(fold) = first_fold(rest) {
        let at = done + fold;
        steps.push(Rewrite::Lines(LineRewrite::Unfold { side, index, at }))?;
        let (before, after) = rest.split_at(fold);
        done += without_last_spacing(before).len() + 1;
        rest = without_first_spacing(after);
    }
    Ok(())
}

/// Whether spacing stands at an end of the text.
fn has_outer_spacing(text: &[u8]) -> bool
    ensures { result ≡ has_outer_spacing text.now }
{
    let Some((first, _)) = text.split_first() else {
        return false;
    };
    let Some((last, _)) = text.split_last() else {
        return false;
    };
    is_spacing(*first) || is_spacing(*last)
}

/// Adds the step that takes away the spacing at the ends of the raw value of the line with the
/// index, where there is some.
fn push_trim(
    alloc: Global,
    side: Side,
    index: usize,
    raw: &[u8],
    steps: &mut Script,
) -> Result<(), Memory>
    ensures { OnOk result (steps.new ≡ steps.old ++ map Lines (trim_steps side index raw.now)) }
{
    if !has_outer_spacing(raw) {
        return Ok(());
    }
    steps.push(Rewrite::Lines(trim(alloc, side, index)))
}

/// Adds the steps that make the line with the index clean.
pub(crate) fn push_cleanings(
    alloc: Global,
    side: Side,
    index: usize,
    line: LineView<'_>,
    steps: &mut Script,
) -> Result<(), Memory>
    requires { IsRaw line.raw.now }
    ensures { OnOk result (Leads (CleansLine side index) (field_line_of line.entry)
        (clean_line (field_line_of line.entry)) steps.old steps.new) }
{
    push_case(alloc, side, index, line.name, steps)?;
    push_unfolds(side, index, line.raw, steps)?;
    push_trim(alloc, side, index, line.raw, steps)
}

/// The step that takes away the blanks at the ends of the raw value of the line with the index.
pub(crate) fn trim(alloc: Global, side: Side, index: usize) -> LineRewrite
    ensures { result ≡ Pad side index [] [] }
{
    LineRewrite::Pad {
        side,
        index,
        before: Text::new(alloc),
        after: Text::new(alloc),
    }
}
