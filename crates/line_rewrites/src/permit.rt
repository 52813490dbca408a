//! Which signatures permit a step.

ghost use Rattle.std.specs.Prelude.{◌≡◌, ◌↔◌, IsTrue};
ghost use Rattle.component_ids.specs.declared.params.SigParams.{SigParams};
ghost use Rattle.component_values.specs.Context.{MessageContext};
ghost use Rattle.component_ids.specs.Table.{is_listed};
ghost use Rattle.msg_body.specs.Views.{message_of, lines_on};
ghost use Rattle.msg_head.specs.Values.{has_bytes, value};
ghost use Rattle.msg_head.specs.Views.{field_line_of};
ghost use Rattle.msg_body.specs.SameFields.{name_of};
ghost use Rattle.line_rewrites.specs.Conditions.{IsLineCondition, IsMetBy};
ghost use Rattle.line_rewrites.specs.LineLists.{PassesOtherNames};
ghost use Rattle.line_rewrites.specs.tools.Permitted.{OfLineOn};
ghost use Rattle.line_rewrites.specs.Permitted.{MayChangeNumber, MayChangeValue, HasValue, counted_names, kept_names};
ghost use Rattle.line_rewrites.specs.RawValues.{IsBeforeLoneSpace, IsLoneSpace};

use crate::covered::{covers_field, covers_lines};
use crate::raw::{is_before_lone_space, is_lone_space};
use crate::sides::{is_between, line_at};
use component_ids::SigParams;
use msg_body::{MessageView, line_pieces};
use msg_head::{LineView, Side};
use rewrite_script::LineRewrite;

/// Whether the number of lines of the name counts, whatever is covered.
fn is_counted(line: LineView<'_>) -> bool
    ensures { result ≡ is_listed counted_names (name_of (field_line_of line.entry)) }
{
    line.is_named(b"host")
        || line.is_named(b"content-length")
        || line.is_named(b"transfer-encoding")
}

/// Whether lines of the name are kept, whatever is covered.
fn is_kept(line: LineView<'_>) -> bool
    ensures { result ≡ is_listed kept_names (name_of (field_line_of line.entry)) }
{
    line.is_named(b"signature") || line.is_named(b"signature-input") || is_counted(line)
}

/// What a step on field lines asks of a signature that is to stay, where all is judged that rests
/// on no signature.
#[derive(Clone, Copy)]
pub enum LineCondition<'s> {
    /// Nothing.
    Always,
    /// No signature is sure to stay.
    Never,
    /// It doesn't cover the field of this name, in any case, on the side.
    FieldUncovered { side: Side, name: &'s [u8] },
    /// It doesn't cover that field line by line (RFC 9421 section 2.1.3).
    LinesUncovered { side: Side, name: &'s [u8] },
}

impl LineCondition<'_> {
    /// Whether a signature of these parameters meets it.
    pub fn is_met(&self, params: &SigParams) -> bool
        ensures { IsTrue result ↔ IsMetBy params.now self.now }
    {
        match *self {
            LineCondition::Always => true,
            LineCondition::Never => false,
            LineCondition::FieldUncovered { side, name } => {
                !covers_field(side, LineView { name, raw: b"" }, params)
            }
            LineCondition::LinesUncovered { side, name } => {
                !covers_lines(side, LineView { name, raw: b"" }, params)
            }
        }
    }
}

/// Nothing is asked, where that holds.
fn always_where(holds: bool) -> LineCondition<'static>
    ensures { (params : SigParams) → IsMetBy params result ↔ IsTrue holds }
{
    if holds {
        LineCondition::Always
    } else {
        LineCondition::Never
    }
}

/// When lines of the name may be joined and split.
pub fn number_condition(side: Side, line: LineView<'_>) -> LineCondition<'_>
    ensures { (params : SigParams) → IsMetBy params result
        ↔ MayChangeNumber side (name_of (field_line_of line.entry)) params }
{
    if is_counted(line) {
        return LineCondition::Never;
    }
    LineCondition::LinesUncovered {
        side,
        name: line.name,
    }
}

/// When lines of the name may come and go.
pub fn value_condition(side: Side, line: LineView<'_>) -> LineCondition<'_>
    ensures { (params : SigParams) → IsMetBy params result
        ↔ MayChangeValue side (name_of (field_line_of line.entry)) params }
{
    if is_kept(line) {
        return LineCondition::Never;
    }
    LineCondition::FieldUncovered {
        side,
        name: line.name,
    }
}

/// Whether the line has a value, and not the empty one.
pub fn has_value(line: LineView<'_>) -> bool
    ensures { result ≡ has_bytes (value line.entry.raw.now) }
{
    for piece in line_pieces(line) {
        if !piece.is_empty() {
            return true;
        }
    }
    false
}

fn permits_fold(message: &MessageView<'_>, side: Side, index: usize, at: usize) -> bool
    ensures { IsTrue result ↔ OfLineOn (lines_on side (message_of message.now)) index
        (λ line. IsLoneSpace at line.raw) }
{
    match line_at(message, side, index) {
        Some(line) => is_lone_space(line.raw, at),
        None => false,
    }
}

fn join_condition<'m>(
    message: &MessageView<'m>,
    side: Side,
    index: usize,
    later: usize,
) -> LineCondition<'m>
    ensures { (params : SigParams) → IsMetBy params result
        ↔ (OfLineOn (lines_on side (message_of message.now)) index
        (λ line. MayChangeNumber side (name_of line) params)
        × OfLineOn (lines_on side (message_of message.now)) later HasValue) }
{
    let Some(line) = line_at(message, side, index) else {
        return LineCondition::Never;
    };
    let Some(other) = line_at(message, side, later) else {
        return LineCondition::Never;
    };
    if !has_value(other) {
        return LineCondition::Never;
    }
    number_condition(side, line)
}

fn split_condition<'m>(
    message: &MessageView<'m>,
    side: Side,
    index: usize,
    at: usize,
) -> LineCondition<'m>
    ensures { (params : SigParams) → IsMetBy params result
        ↔ OfLineOn (lines_on side (message_of message.now)) index
        (λ line. MayChangeNumber side (name_of line) params × IsBeforeLoneSpace at line.raw) }
{
    let Some(line) = line_at(message, side, index) else {
        return LineCondition::Never;
    };
    if !is_before_lone_space(line.raw, at) {
        return LineCondition::Never;
    }
    number_condition(side, line)
}

fn permits_move(message: &MessageView<'_>, side: Side, index: usize, to: usize) -> bool
    ensures { IsTrue result ↔ PassesOtherNames index to (lines_on side (message_of message.now)) }
{
    let Some(line) = line_at(message, side, index) else {
        return false;
    };
    if to >= message.line_count(side) {
        return false;
    }
    if index <= to {
        !is_between(message, side, index + 1, to + 1, line)
    } else {
        !is_between(message, side, to, index, line)
    }
}

fn remove_condition<'m>(message: &MessageView<'m>, side: Side, index: usize) -> LineCondition<'m>
    ensures { (params : SigParams) → IsMetBy params result
        ↔ OfLineOn (lines_on side (message_of message.now)) index
        (λ line. MayChangeValue side (name_of line) params) }
{
    match line_at(message, side, index) {
        Some(line) => value_condition(side, line),
        None => LineCondition::Never,
    }
}

/// What the step asks of a signature of the message. Whether it is applicable isn't asked.
pub fn line_condition<'s>(message: &MessageView<'s>, step: &'s LineRewrite) -> LineCondition<'s>
    ensures { (context : MessageContext) → context.message ≡ message_of message.now
        → IsLineCondition context step.now result }
{
    match step {
        LineRewrite::Pad { .. } => LineCondition::Always,
        LineRewrite::Unfold { .. } => LineCondition::Always,
        LineRewrite::Case { .. } => LineCondition::Always,
        LineRewrite::Fold {
            side,
            index,
            at,
            ..
        } => always_where(permits_fold(message, *side, *index, *at)),
        LineRewrite::Join { side, index, later } => join_condition(message, *side, *index, *later),
        LineRewrite::Split { side, index, at } => split_condition(message, *side, *index, *at),
        LineRewrite::Move { side, index, to } => {
            always_where(permits_move(message, *side, *index, *to))
        }
        LineRewrite::Add {
            side,
            name,
            text,
            ..
        } => value_condition(
            *side,
            LineView {
                name: name.bytes(),
                raw: text.bytes(),
            },
        ),
        LineRewrite::Remove { side, index } => remove_condition(message, *side, *index),
    }
}
