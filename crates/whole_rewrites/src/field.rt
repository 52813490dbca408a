//! Rewritings of a field by its name: the text of `Host`, and strict texts.

ghost use Rattle.std.specs.Prelude.{◌≡◌, ◌+◌, ◌^◌, ◌<◌, ◌≤◌, ◌++◌, ◌∷◌, [], length, drop, IsTrue, IsFalse, IfSome, MatchOption, OnOk};
ghost use Rattle.std.specs.List.{list_all};
ghost use Rattle.byte_grammar.specs.Classes.{is_field_name, is_line_byte};
ghost use Rattle.msg_head.specs.Lines.{line_text};
ghost use Rattle.msg_head.specs.Values.{combined_value, is_there};
ghost use Rattle.msg_head.specs.Views.{field_line_of};
ghost use Rattle.msg_body.specs.Views.{lines_on, message_of};
ghost use Rattle.component_ids.specs.Types.{kind_in};
ghost use Rattle.component_values.specs.Context.{HasWholeMessage, context_of};
ghost use Rattle.component_values.specs.Values.{KindRow};
ghost use Rattle.rewrite_script.specs.declared.rewrite.WholeRewrite.TheVariants.{Host, Resf};
ghost use Rattle.line_rewrites.specs.Sides.{lines_text, text_with};
ghost use Rattle.whole_rewrites.specs.tools.Fields.{AnswersStrict, IsFirstAt, with_text, without_name};
ghost use Rattle.whole_rewrites.specs.tools.Judged.{Offers};

use crate::content::header_of;
use component_values::{Context, strict_answer};
use framing::is_request;
use line_rewrites::{ApplyFault, SideLines, append_text_line};
use msg_body::MessageView;
use msg_head::{LineView, Side};
use sfv_text::{Memory, Text};
use std::alloc::Global;

/// A field line, with its index on its side.
#[derive(Clone, Copy)]
pub(crate) struct LineAt<'m> {
    pub(crate) index: usize,
    pub(crate) line: LineView<'m>,
}

/// The first line of the name on the side.
pub(crate) fn first_named<'m>(
    message: &MessageView<'m>,
    side: Side,
    name: &[u8],
) -> Option<LineAt<'m>>
    ensures first { MatchOption result
        (IsFalse (is_there (lines_on side (message_of message.now)) name.now))
        (λ found. IsFirstAt name.now (lines_on side (message_of message.now)) found.index
        (field_line_of found.line)) }
    ensures there { IfSome result
        (λ found. found.index < length (lines_on side (message_of message.now))) }
    ensures fits { IfSome result (λ found. found.index + 1 < 2 ^ 64) }
{
    for index in 0..message.line_count(side) {
        let line = message.line(side, index);
        if line.is_named(name) {
            return Some(LineAt { index, line });
        }
    }
    None
}

/// Adds the message's bytes, this text in the line.
fn append_with_text(
    lines: &SideLines<'_, '_>,
    at: LineAt<'_>,
    text: &[u8],
    into: &mut Text,
) -> Result<(), Memory>
    requires there { at.index < length lines.now.lines }
    requires fits { at.index + 1 < 2 ^ 64 }
    ensures { OnOk result (into.new ≡ into.old ++ text_with lines.now
        (with_text at.entry.index (field_line_of at.entry.line) text.now lines.now.lines)) }
{
    into.append(lines.before(at.index))?;
    append_text_line(at.line.name, text, into)?;
    into.append(lines.rest_from(at.index + 1))
}

/// The bytes of the message, this text in its one `Host` line (RFC 9110 section 7.2).
pub(crate) fn with_host(
    alloc: Global,
    context: &Context<'_, '_>,
    text: &[u8],
) -> Result<Text, ApplyFault>
    requires writable { IsTrue (list_all is_line_byte text.now) }
    requires whole { HasWholeMessage (context_of context.now) }
    ensures { Offers (context_of context.now) (Host text.now) result }
{
    let message = context.message;
    if !is_request(message.start()) {
        return Err(ApplyFault::NotApplicable);
    }
    let Some(host) = first_named(message, Side::Header, b"host") else {
        return Err(ApplyFault::NotApplicable);
    };
    let lines = header_of(message);
    if lines.is_between(host.index + 1, lines.count(), host.line) {
        return Err(ApplyFault::NotApplicable);
    }
    let room = message
        .bytes()
        .len()
        .saturating_add(text.len())
        .saturating_add(1);
    let mut rewritten = Text::with_capacity(alloc, room)?;
    append_with_text(&lines, host, text, &mut rewritten)?;
    Ok(rewritten)
}

/// Adds the line as it is.
fn append_line(line: LineView<'_>, into: &mut Text) -> Result<(), Memory>
    ensures { OnOk result (into.new ≡ into.old ++ line_text (field_line_of line.entry)) }
{
    into.append(line.name)?;
    into.append(b":")?;
    into.append(line.raw)?;
    into.append(b"\r\n")
}

/// Adds the line as it is, unless it has the name.
fn append_unless_named(name: &[u8], line: LineView<'_>, into: &mut Text) -> Result<(), Memory>
    ensures { OnOk result (into.new ≡ into.old
        ++ lines_text (without_name name.now (field_line_of line.entry ∷ []))) }
{
    if line.is_named(name) {
        return Ok(());
    }
    append_line(line, into)
}

/// Adds the lines of the side from the index on, but for those of the name.
fn append_others(
    message: &MessageView<'_>,
    side: Side,
    name: &[u8],
    from: usize,
    into: &mut Text,
) -> Result<(), Memory>
    requires { from ≤ length (lines_on side (message_of message.now)) }
    ensures { OnOk result (into.new ≡ into.old ++ lines_text
        (without_name name.now (drop from (lines_on side (message_of message.now))))) }
{
    for index in from..message.line_count(side) {
        append_unless_named(name, message.line(side, index), into)?;
    }
    Ok(())
}

/// The strict text of the field of that name on the side, by the kind that it is known to have (RFC
/// 9651 section 4.1).
fn strict_field(
    alloc: Global,
    context: &Context<'_, '_>,
    side: Side,
    name: &[u8],
) -> Result<Text, ApplyFault>
    ensures { AnswersStrict (KindRow (kind_in (context_of context.now).types name.now)
        (combined_value (lines_on side (context_of context.now).message) name.now)) result }
{
    let lines = context.message.lines_named(side, name);
    let answer = strict_answer(alloc, context.types.kind_of(name), lines)?;
    match answer {
        Ok(strict) => Ok(strict),
        Err(_) => Err(ApplyFault::NotApplicable),
    }
}

/// The bytes of the message, the lines of the name in one, with the strict text of their field (RFC
/// 9651 section 4.1).
pub(crate) fn in_strict_form(
    alloc: Global,
    context: &Context<'_, '_>,
    side: Side,
    name: &[u8],
) -> Result<Text, ApplyFault>
    requires writable { IsTrue (is_field_name name.now) }
    requires whole { HasWholeMessage (context_of context.now) }
    ensures { Offers (context_of context.now) (Resf side name.now) result }
{
    let message = context.message;
    let Some(first) = first_named(message, side, name) else {
        return Err(ApplyFault::NotApplicable);
    };
    let Some(lines) = SideLines::of(message, side) else {
        unreachable!() // a line of the side was found
    };
    let strict = match strict_field(alloc, context, side, name) {
        Ok(strict) => strict,
        Err(fault) => return Err(fault),
    };
    let room = message
        .bytes()
        .len()
        .saturating_add(strict.bytes().len())
        .saturating_add(1);
    let mut rewritten = Text::with_capacity(alloc, room)?;
    rewritten.append(lines.before(first.index))?;
    append_text_line(first.line.name, strict.bytes(), &mut rewritten)?;
    append_others(message, side, name, first.index + 1, &mut rewritten)?;
    rewritten.append(lines.rest_from(lines.count()))?;
    Ok(rewritten)
}
