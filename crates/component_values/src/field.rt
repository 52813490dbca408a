//! How the value of a component is fed, or how it lacks one.

ghost use Rattle.std.specs.Prelude.{◌≡◌, List, filter, Some, Ok, Err, IfSome, MatchResult};
ghost use Rattle.framing.specs.Framings.{is_request};
ghost use Rattle.msg_body.specs.Views.{message_of, lines_on};
ghost use Rattle.msg_head.specs.Lines.{FieldLine};
ghost use Rattle.msg_head.specs.Names.{has_name};
ghost use Rattle.msg_head.specs.Values.{joined_value};
ghost use Rattle.component_ids.specs.Types.{kind_in};
ghost use Rattle.component_values.specs.Context.{context_of};
ghost use Rattle.component_values.specs.Readings.{AreReadOf, field_of, text_at};
ghost use Rattle.component_values.specs.Values.{plain_value, FormRow, FieldRow, ComesTo, side_of, message_for, related_message};
ghost use Rattle.component_values.specs.tools.Rows.{PlansRow, form_meant};

use crate::context::Context;
use crate::context_field::side_of;
use crate::form::{Form, form_of};
use crate::lines::{is_ascii, is_ascii_text};
use crate::plan::Plan;
use crate::readings::Readings;
use byte_grammar::is_field_name;
use component_ids::{ComponentId, has_param};
use derived_values::{Lack, NoValue, derived_value_in};
use framing::is_request;
use msg_body::{MessageView, joined_pieces};
use msg_head::NamedFieldLines;
use sfv_text::Params;
use std::alloc::Global;

/// The combined value where it is one piece of the message: that of one line that isn't folded.
fn one_piece<'m>(lines: NamedFieldLines<'_, 'm>) -> Option<&'m [u8]>
    ensures { IfSome result (λ piece. piece.now ≡ joined_value lines.entry) }
{
    let mut pieces = joined_pieces(lines);
    let first = pieces.next()?;
    match pieces.next() {
        Some(_) => None,
        None => Some(first),
    }
}

/// The combined value itself, which has to be ASCII.
fn plain_plan<'a, 'm>(lines: NamedFieldLines<'a, 'm>) -> Result<Plan<'a, 'm>, NoValue>
    ensures { PlansRow (λ answer. answer ≡ plain_value (joined_value lines.entry)) result }
{
    if let Some(value) = one_piece(lines.again()) {
        return if is_ascii_text(value) {
            Ok(Plan::Piece(value))
        } else {
            Err(NoValue::Lacks(Lack::NotAscii))
        };
    }
    if !is_ascii(&lines) {
        return Err(NoValue::Lacks(Lack::NotAscii));
    }
    Ok(Plan::Combined(lines))
}

/// How the value of a field that has lines is fed, in the form that is asked for.
fn plan_in_form<'a, 'm>(
    alloc: Global,
    context: &Context<'a, 'm>,
    id: &ComponentId,
    found: NamedFieldLines<'a, 'm>,
    form: Form<'_>,
    readings: &mut Readings,
) -> Result<Plan<'a, 'm>, NoValue>
    requires readings { AreReadOf (context_of context.now) readings.old }
    requires found { text_at (context_of context.now) (field_of id.now)
        ≡ Some (joined_value found) }
    ensures row { (lines : List FieldLine) → found.entry ≡ filter (has_name id.now.name) lines
        → PlansRow (FormRow (form_meant form.entry)
        (kind_in (context_of context.now).types id.now.name) lines id.now.name) result }
    ensures readings { AreReadOf (context_of context.now) readings.new }
{
    match form {
        Form::ByteSequences => Ok(Plan::ByteSequences(found)),
        Form::Member(key) => {
            let member = readings.member_text(alloc, context, id, key, found)?;
            Ok(Plan::Text(member))
        }
        Form::Strict => {
            let strict = readings.strict_text(alloc, context, id, found)?;
            Ok(Plan::Text(strict))
        }
        Form::Plain => plain_plan(found),
    }
}

/// How the value of a field of this message is fed.
fn field_plan<'a, 'm>(
    alloc: Global,
    context: &Context<'a, 'm>,
    message: &'a MessageView<'m>,
    id: &ComponentId,
    readings: &mut Readings,
) -> Result<Plan<'a, 'm>, NoValue>
    requires readings { AreReadOf (context_of context.now) readings.old }
    requires message { message_for (context_of context.now) id.now.params
        ≡ Ok (message_of message.now) }
    ensures row { PlansRow (FieldRow id.now.params
        (kind_in (context_of context.now).types id.now.name)
        (lines_on (side_of id.now.params) (message_of message.now)) id.now.name) result }
    ensures readings { AreReadOf (context_of context.now) readings.new }
{
    let found = message.lines_named(side_of(&id.params), id.name.bytes());
    if found.is_empty() {
        return Err(NoValue::Lacks(Lack::Absent));
    }
    plan_in_form(alloc, context, id, found, form_of(&id.params), readings)
}

/// The request that a response answers.
fn related_message<'a, 'm>(context: &Context<'a, 'm>) -> Result<&'a MessageView<'m>, Lack>
    ensures { MatchResult result
        (λ view. related_message (context_of context.now) ≡ Ok (message_of view.now))
        (λ lack. related_message (context_of context.now) ≡ Err lack) }
{
    if is_request(context.message.start()) {
        return Err(Lack::Underivable);
    }
    match context.related {
        Some(request) => Ok(request),
        None => Err(Lack::Absent),
    }
}

/// The message that a component is drawn from.
fn message_for<'a, 'm>(
    context: &Context<'a, 'm>,
    params: &Params,
) -> Result<&'a MessageView<'m>, Lack>
    ensures { MatchResult result
        (λ view. message_for (context_of context.now) params.now ≡ Ok (message_of view.now))
        (λ lack. message_for (context_of context.now) params.now ≡ Err lack) }
{
    if has_param(params, b"req") {
        related_message(context)
    } else {
        Ok(context.message)
    }
}

/// How the value of a component is fed. What is read for it is kept among the readings.
pub(crate) fn component_plan<'a, 'm>(
    alloc: Global,
    context: &Context<'a, 'm>,
    id: &'a ComponentId,
    readings: &mut Readings,
) -> Result<Plan<'a, 'm>, NoValue>
    requires { AreReadOf (context_of context.now) readings.old }
    ensures row { PlansRow (ComesTo (context_of context.now) id.now) result }
    ensures readings { AreReadOf (context_of context.now) readings.new }
{
    let message = message_for(context, &id.params)?;
    if !is_field_name(id.name.bytes()) {
        let kept = &mut readings.query_params;
        let value = derived_value_in(alloc, message, context.scheme, id, kept)?;
        return Ok(Plan::Derived(value));
    }
    field_plan(alloc, context, message, id, readings)
}
