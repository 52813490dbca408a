//! Lines of one name, joined.

ghost use Rattle.std.specs.Prelude.{◌≡◌, ◌++◌, ◌<◌, IfSome, OnOk, length, map, position, vec_len};
ghost use Rattle.std.specs.List.{All};
ghost use Rattle.msg_head.specs.Names.{has_name};
ghost use Rattle.normal_forms.specs.LineSteps.{join_steps};
ghost use Rattle.normal_forms.specs.NormalLines.{IsClean, IsJoined};
ghost use Rattle.normal_forms.specs.tools.Sides.{AreJoinable, IsAloneAt, JoinsAt, JoinsLines};
ghost use Rattle.rewrite_script.specs.declared.rewrite.Rewrite.TheVariants.{Lines};

use crate::clean::trim;
use crate::line::NormalLine;
use component_ids::SigParams;
use line_rewrites::number_condition;
use msg_head::Side;
use rewrite_script::{LineRewrite, Rewrite, Script};
use sfv_text::Memory;
use std::alloc::Global;

/// The index of the first of the lines that has the name of the line.
fn next_named(lines: &[NormalLine<'_>], line: &NormalLine<'_>) -> Option<usize>
    ensures { result ≡ position (has_name line.now.name) lines.now }
{
    lines.iter().position(|other| other.has_name_of(line))
}

/// The index of the line with which the line of the index is to be joined: the next of its name,
/// where that one has a value and the number of lines of the name doesn't count.
fn joinable(side: Side, params: &SigParams, lines: &[NormalLine<'_>], index: usize) -> Option<usize>
    requires there { index < length lines.now }
    requires clean { All IsClean lines.now }
    ensures some { IfSome result (λ later. AreJoinable side params.now lines.now index later) }
    ensures none { result ≡ None → IsAloneAt side params.now lines.now index }
{
    let line = &lines[index];
    if !number_condition(side, line.named()).is_met(params) {
        return None;
    }
    let later = index + 1 + next_named(&lines[index + 1..], line)?;
    if !lines[later].has_value() {
        return None;
    }
    Some(later)
}

/// Joins the line of the one index with the later one.
fn join_at<'m>(
    alloc: Global,
    side: Side,
    index: usize,
    later: usize,
    lines: &mut Vec<NormalLine<'m>>,
    steps: &mut Script,
) -> Result<(), Memory>
    requires order { index < later }
    requires there { later < vec_len lines.old }
    ensures lines { OnOk result (JoinsAt index later lines.old.items lines.new.items) }
    ensures steps { OnOk result (steps.new
        ≡ steps.old ++ map Lines (join_steps side (index, later))) }
{
    steps.push(Rewrite::Lines(LineRewrite::Join { side, index, later }))?;
    steps.push(Rewrite::Lines(trim(alloc, side, index)))?;
    let other = lines.remove(later);
    lines[index].join(&other)
}

/// Joins lines of one name, from the last to the first.
pub(crate) fn join_lines<'m>(
    alloc: Global,
    side: Side,
    params: &SigParams,
    lines: &mut Vec<NormalLine<'m>>,
    steps: &mut Script,
) -> Result<(), Memory>
    requires { All IsClean lines.old.items }
    ensures join { OnOk result (JoinsLines side params.now lines.old.items lines.new.items
        steps.old steps.new) }
    ensures joined { OnOk result (IsJoined side params.now lines.new.items) }
{
    let mut left = lines.len();
    'lines: while left > 0 {
        left -= 1;
        if let Some(later) = joinable(side, params, lines.as_slice(), left) {
            join_at(alloc, side, left, later, lines, steps)?;
        }
    }
    Ok(())
}
