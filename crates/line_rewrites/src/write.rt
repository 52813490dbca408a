//! The bytes of a message with the lines that a step makes.

ghost use Rattle.std.specs.Prelude.{◌≡◌, ◌+◌, ◌^◌, ◌<◌, ◌≤◌, ◌++◌, Some, OnOk, length, option_map, slice_get};
ghost use Rattle.msg_head.specs.Lines.{FieldLine};
ghost use Rattle.msg_body.specs.Views.{message_of};
ghost use Rattle.line_rewrites.specs.LineLists.{line_of};
ghost use Rattle.line_rewrites.specs.tools.Computed.{replaced_at, joined_at, split_at, moved_at, moved_backward, moved_forward, added, removed, changed_side, changed_text, rewritten};
ghost use Rattle.line_rewrites.specs.Sides.{text_with};
ghost use Rattle.line_rewrites.specs.tools.Judged.{Adds, Makes};

use crate::fault::ApplyFault;
use crate::line::{append_joined_line, append_line, append_text_line, append_value_line, new_line};
use crate::raw::cut_at_comma;
use crate::sides::{SideLines, is_same_name};
use msg_body::MessageView;
use msg_head::Side;
use rewrite_script::LineRewrite;
use sfv_text::{Memory, Text};
use std::alloc::Global;

/// The line becomes another.
fn write_replaced(
    lines: &SideLines<'_, '_>,
    index: usize,
    step: &LineRewrite,
    text: &mut Text,
) -> Result<(), ApplyFault>
    ensures { Adds (option_map (text_with lines.now)
        (replaced_at step.now index lines.now.lines (slice_get lines.now.lines index)))
        text.old text.new result }
{
    let Some(line) = lines.line(index) else {
        return Err(ApplyFault::NotApplicable);
    };
    let Some(other) = new_line(step, line) else {
        return Err(ApplyFault::NotApplicable);
    };
    text.append(lines.before(index))?;
    append_line(other, text)?;
    text.append(lines.rest_from(index + 1))?;
    Ok(())
}

/// The line and a later one become one.
fn write_joined(
    lines: &SideLines<'_, '_>,
    index: usize,
    later: usize,
    text: &mut Text,
) -> Result<(), ApplyFault>
    ensures { Adds (option_map (text_with lines.now) (joined_at index later lines.now.lines
        (slice_get lines.now.lines index) (slice_get lines.now.lines later)))
        text.old text.new result }
{
    let Some(line) = lines.line(index) else {
        return Err(ApplyFault::NotApplicable);
    };
    let Some(other) = lines.line(later) else {
        return Err(ApplyFault::NotApplicable);
    };
    if index >= later || !is_same_name(other.name, line.name) {
        return Err(ApplyFault::NotApplicable);
    }
    if lines.is_between(index + 1, later, line) {
        return Err(ApplyFault::NotApplicable);
    }
    text.append(lines.before(index))?;
    append_joined_line(line, other, text)?;
    text.append(lines.between(index + 1, later))?;
    text.append(lines.rest_from(later + 1))?;
    Ok(())
}

/// The line becomes two at the comma.
fn write_split(
    lines: &SideLines<'_, '_>,
    index: usize,
    at: usize,
    text: &mut Text,
) -> Result<(), ApplyFault>
    ensures { Adds (option_map (text_with lines.now)
        (split_at index at lines.now.lines (slice_get lines.now.lines index)))
        text.old text.new result }
{
    let Some(line) = lines.line(index) else {
        return Err(ApplyFault::NotApplicable);
    };
    let Some((first, last)) = cut_at_comma(line.raw, at) else {
        return Err(ApplyFault::NotApplicable);
    };
    text.append(lines.before(index))?;
    append_value_line(line.name, first, text)?;
    append_value_line(line.name, last, text)?;
    text.append(lines.rest_from(index + 1))?;
    Ok(())
}

/// The line comes to an index that isn't before its own.
fn write_forward(
    lines: &SideLines<'_, '_>,
    index: usize,
    to: usize,
    text: &mut Text,
) -> Result<(), Memory>
    requires order { index ≤ to }
    requires there { to < length lines.now.lines }
    requires fits { to + 1 < 2 ^ 64 }
    ensures { OnOk result ((line : FieldLine) → slice_get lines.now.lines index ≡ Some line
        → text.new ≡ text.old ++ text_with lines.now
        (moved_forward index to lines.now.lines line)) }
{
    text.append(lines.before(index))?;
    text.append(lines.between(index + 1, to + 1))?;
    text.append(lines.between(index, index + 1))?;
    text.append(lines.rest_from(to + 1))?;
    Ok(())
}

/// The line comes to an index before its own.
fn write_backward(
    lines: &SideLines<'_, '_>,
    index: usize,
    to: usize,
    text: &mut Text,
) -> Result<(), Memory>
    requires order { to < index }
    requires there { index < length lines.now.lines }
    requires fits { index + 1 < 2 ^ 64 }
    ensures { OnOk result ((line : FieldLine) → slice_get lines.now.lines index ≡ Some line
        → text.new ≡ text.old ++ text_with lines.now
        (moved_backward index to lines.now.lines line)) }
{
    text.append(lines.before(to))?;
    text.append(lines.between(index, index + 1))?;
    text.append(lines.between(to, index))?;
    text.append(lines.rest_from(index + 1))?;
    Ok(())
}

/// The line comes to the other index.
fn write_moved(
    lines: &SideLines<'_, '_>,
    index: usize,
    to: usize,
    text: &mut Text,
) -> Result<(), ApplyFault>
    ensures { Adds (option_map (text_with lines.now)
        (moved_at index to lines.now.lines (slice_get lines.now.lines index)))
        text.old text.new result }
{
    let Some(_) = lines.line(index) else {
        return Err(ApplyFault::NotApplicable);
    };
    let Some(_) = lines.line(to) else {
        return Err(ApplyFault::NotApplicable);
    };
    if index <= to {
        write_forward(lines, index, to, text)?;
        return Ok(());
    }
    write_backward(lines, index, to, text)?;
    Ok(())
}

/// A line is put in.
fn write_added(
    lines: &SideLines<'_, '_>,
    index: usize,
    name: &[u8],
    line: &[u8],
    text: &mut Text,
) -> Result<(), ApplyFault>
    ensures { Adds (option_map (text_with lines.now)
        (added index (line_of name.now line.now) lines.now.lines)) text.old text.new result }
{
    if index > lines.count() {
        return Err(ApplyFault::NotApplicable);
    }
    text.append(lines.before(index))?;
    append_text_line(name, line, text)?;
    text.append(lines.rest_from(index))?;
    Ok(())
}

/// The line goes.
fn write_removed(lines: &SideLines<'_, '_>, index: usize, text: &mut Text) -> Result<(), ApplyFault>
    ensures { Adds (option_map (text_with lines.now) (removed index lines.now.lines))
        text.old text.new result }
{
    if index >= lines.count() {
        return Err(ApplyFault::NotApplicable);
    }
    text.append(lines.before(index))?;
    text.append(lines.rest_from(index + 1))?;
    Ok(())
}

/// Adds the bytes of the message, with the lines that the step makes of those of the side.
fn write(lines: &SideLines<'_, '_>, step: &LineRewrite, text: &mut Text) -> Result<(), ApplyFault>
    ensures { Adds (changed_text lines.now step.now) text.old text.new result }
{
    match step {
        LineRewrite::Pad { index, .. } => write_replaced(lines, *index, step, text),
        LineRewrite::Fold { index, .. } => write_replaced(lines, *index, step, text),
        LineRewrite::Unfold { index, .. } => write_replaced(lines, *index, step, text),
        LineRewrite::Case { index, .. } => write_replaced(lines, *index, step, text),
        LineRewrite::Join { index, later, .. } => write_joined(lines, *index, *later, text),
        LineRewrite::Split { index, at, .. } => write_split(lines, *index, *at, text),
        LineRewrite::Move { index, to, .. } => write_moved(lines, *index, *to, text),
        LineRewrite::Add {
            index,
            name,
            text: line,
            ..
        } => write_added(lines, *index, name.bytes(), line.bytes(), text),
        LineRewrite::Remove { index, .. } => write_removed(lines, *index, text),
    }
}

/// The side that the step changes.
fn side_of(step: &LineRewrite) -> Side
    ensures { result ≡ changed_side step.now }
{
    match step {
        LineRewrite::Pad { side, .. } => *side,
        LineRewrite::Fold { side, .. } => *side,
        LineRewrite::Unfold { side, .. } => *side,
        LineRewrite::Join { side, .. } => *side,
        LineRewrite::Split { side, .. } => *side,
        LineRewrite::Move { side, .. } => *side,
        LineRewrite::Case { side, .. } => *side,
        LineRewrite::Add { side, .. } => *side,
        LineRewrite::Remove { side, .. } => *side,
    }
}

/// How many bytes the step adds at most.
fn growth(step: &LineRewrite, lines: &SideLines<'_, '_>) -> usize {
    match step {
        LineRewrite::Pad { before, after, .. } => before
            .bytes()
            .len()
            .saturating_add(after.bytes().len()),
        LineRewrite::Fold { blanks, .. } => blanks.bytes().len().saturating_add(1),
        LineRewrite::Split { index, .. } => match lines.line(*index) {
            Some(line) => line.name.len().saturating_add(6),
            None => 0,
        },
        LineRewrite::Add { name, text, .. } => {
            name.bytes()
                .len()
                .saturating_add(text.bytes().len())
                .saturating_add(4)
        }
        _ => 0,
    }
}

/// The bytes of the message with the lines that the step makes of those of its side. Whether they
/// are a message isn't asked.
pub(crate) fn rewritten(
    alloc: Global,
    message: &MessageView<'_>,
    step: &LineRewrite,
) -> Result<Text, ApplyFault>
    ensures { Makes (rewritten (message_of message.now) step.now) result }
{
    let Some(lines) = SideLines::of(message, side_of(step)) else {
        return Err(ApplyFault::NotApplicable);
    };
    let room = message.bytes().len().saturating_add(growth(step, &lines));
    let mut text = Text::with_capacity(alloc, room)?;
    write(&lines, step, &mut text)?;
    Ok(text)
}
