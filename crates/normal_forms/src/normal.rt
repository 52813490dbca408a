//! The normal form of a message.

ghost use Rattle.std.specs.Prelude.{◌≡◌, ◌++◌, ℕ, Bool, List, IfOk, OnOk};
ghost use Rattle.std.specs.List.{position};
ghost use Rattle.byte_grammar.specs.Causes.{AnswersWhere};
ghost use Rattle.component_values.specs.Context.{HasWholeMessage, context_of};
ghost use Rattle.msg_body.specs.Messages.{Message, message_text};
ghost use Rattle.msg_body.specs.Views.{message_of};
ghost use Rattle.msg_head.specs.Starts.{start_text};
ghost use Rattle.msg_head.specs.Trailers.{trailer_text};
ghost use Rattle.normal_forms.specs.Causes.{IsFirstUnplain, is_unplain};
ghost use Rattle.normal_forms.specs.Steps.{IsNormalForm, normal_message};
ghost use Rattle.normal_forms.specs.declared.fault.NormalFault.{NormalFault};
ghost use Rattle.normal_forms.specs.tools.Parts.{AreNormalParts};
ghost use Rattle.signatures.specs.Signatures.{HasSignature};

use crate::basis::FIXED_NAMES;
use crate::content::{append_normal_content, push_rechunk};
use crate::fault::NormalFault;
use crate::line::NormalLine;
use crate::side::normal_lines;
use byte_grammar::is_listed;
use component_ids::{ComponentId, SigParams, has_param};
use component_values::Context;
use msg_body::MessageView;
use msg_head::Side;
use rewrite_script::Script;
use sfv_text::{Memory, Text};
use std::alloc::Global;

/// The steps that make a message normal, and the normal message.
#[derive(Drop)]
pub struct Normal {
    /// Steps of `rewrite_script`, to be taken one after the other. They aren't held to the number
    /// that a script may have.
    pub steps: Script,
    /// The message's text.
    pub message: Text,
}

/// The steps that make a message normal, and its normal lines.
#[derive(Drop)]
pub(crate) struct NormalParts<'m> {
    pub(crate) steps: Script,
    header: Vec<NormalLine<'m>>,
    trailer: Vec<NormalLine<'m>>,
}

/// Whether the component covers what a field reads as, of a field that may be anything.
fn is_unplain(id: &ComponentId) -> bool
    ensures { result ≡ is_unplain id.now }
{
    if !has_param(&id.params, b"sf") && !has_param(&id.params, b"key") {
        return false;
    }
    !is_listed(&FIXED_NAMES, id.name.bytes())
}

/// The index of the first component that covers what a field reads as, of a field that may be
/// anything.
pub(crate) fn first_unplain(params: &SigParams) -> Option<usize>
    ensures { result ≡ position is_unplain params.now.ids }
{
    params.ids.iter().position(|id| is_unplain(id))
}

/// The steps that make the context's message normal, and its normal lines.
pub(crate) fn normal_parts<'m>(
    alloc: Global,
    context: &Context<'_, 'm>,
    params: &SigParams,
) -> Result<NormalParts<'m>, Memory>
    requires { HasWholeMessage (context_of context.now) }
    ensures { IfOk result (AreNormalParts (context_of context.now) params.now) }
{
    let message = context.message;
    let mut steps = Script::new(alloc);
    let header = normal_lines(alloc, message, Side::Header, params, &mut steps)?;
    let trailer = normal_lines(alloc, message, Side::Trailer, params, &mut steps)?;
    push_rechunk(alloc, context, &mut steps)?;
    Ok(NormalParts {
        steps,
        header,
        trailer,
    })
}

/// Adds the lines, and an empty one.
fn append_lines(lines: &[NormalLine<'_>], text: &mut Text) -> Result<(), Memory>
    ensures { OnOk result (text.new ≡ text.old ++ trailer_text lines.now) }
{
    for line in lines {
        line.append_to(text)?;
    }
    text.append(b"\r\n")
}

/// The start line, its end included.
pub(crate) fn start_line<'m>(message: &MessageView<'m>) -> &'m [u8]
    ensures { result.now ≡ start_text (message_of message.now).head.start }
{
    &message.bytes()[..message.line_offset(Side::Header, 0)]
}

/// The text of the message with these lines and its content in one chunk.
fn normal_text(
    alloc: Global,
    message: &MessageView<'_>,
    parts: &NormalParts<'_>,
) -> Result<Text, Memory>
    ensures { IfOk result (λ text. (to_head : Bool) → text ≡ message_text (normal_message to_head
        (message_of message.now) parts.now.header.items parts.now.trailer.items)) }
{
    let mut text = Text::with_capacity(alloc, message.bytes().len())?;
    text.append(start_line(message))?;
    append_lines(parts.header.as_slice(), &mut text)?;
    append_normal_content(alloc, message, &mut text)?;
    if message.has_trailers() {
        append_lines(parts.trailer.as_slice(), &mut text)?;
    }
    Ok(text)
}

/// The normal form of the context's message for the label's signature, which has these parameters.
pub fn normal_form(
    alloc: Global,
    context: &Context<'_, '_>,
    label: &[u8],
    params: &SigParams,
) -> Result<Normal, NormalFault>
    requires whole { HasWholeMessage (context_of context.now) }
    requires signature { (tag : List ℕ)
        × HasSignature (context_of context.now).message label.now params.now tag }
    ensures ok { IfOk result (λ given. (normal : Message)
        × IsNormalForm (context_of context.now) label.now params.now given.steps normal
        × (given.message ≡ message_text normal)) }
    ensures fault { (index : ℕ) → AnswersWhere NormalFault.Memory result
        (NormalFault.NotPlain index) (IsFirstUnplain params.now index) }
{
    if let Some(index) = first_unplain(params) {
        return Err(NormalFault::NotPlain(index));
    }
    let parts = normal_parts(alloc, context, params)?;
    let message = normal_text(alloc, context.message, &parts)?;
    Ok(Normal {
        steps: parts.steps,
        message,
    })
}
