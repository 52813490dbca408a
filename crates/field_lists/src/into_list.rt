//! Turns a message of HTTP/1.1 into a list of fields.

ghost use Rattle.std.specs.Prelude.{◌≡◌, ◌≢◌, ◌++◌, ◌∷◌, [], ℕ, List, Ok, IfOk, OnOk, IfSome, IfNone, IsTrue, MatchResult, is_err, option_map, codes};
ghost use Rattle.byte_grammar.specs.Causes.{AnswersWhere};
ghost use Rattle.msg_head.specs.Starts.{RequestLine};
ghost use Rattle.msg_head.specs.Values.{value, values};
ghost use Rattle.msg_head.specs.Views.{field_line_of};
ghost use Rattle.msg_head.specs.declared.error.Side.{Side};
ghost use Rattle.msg_body.specs.Views.{message_of, message_content, lines_on};
ghost use Rattle.derived_values.specs.Authorities.{IsAuthorityValue};
ghost use Rattle.derived_values.specs.Targets.{query_text};
ghost use Rattle.derived_values.specs.Views.{parts_of};
ghost use Rattle.derived_values.specs.Derived.{named_authority, scheme_of, sole_value};
ghost use Rattle.component_values.specs.Context.{context_of};
ghost use Rattle.list_texts.specs.declared.list.FieldList.{FieldList};
ghost use Rattle.field_lists.specs.Controls.{field_of, request, response};
ghost use Rattle.field_lists.specs.FromCauses.{IsFromFault};
ghost use Rattle.field_lists.specs.FromMessages.{TurnsIntoList, kept_fields, pseudo_fields, request_parts};
ghost use Rattle.field_lists.specs.tools.FromViews.{control_in, GivesAuthority, GivesFields, GivesList, GivesRequest, GivesText};

use crate::from_fault::FromFault;
use crate::parts::is_refused_name;
use crate::values::{lowered, value_of_line};
use byte_grammar::{Memory, Sequence, Text};
use component_values::Context;
use derived_values::{Target, authority_of, cut_target, path_of, scheme_text};
use list_texts::{Field, FieldList};
use msg_body::MessageView;
use msg_head::{LineView, Side, Start};
use std::alloc::Global;

/// What the pseudo-header fields of a request say (RFC 9113 section 8.3.1).
#[derive(Drop)]
pub(crate) struct RequestTexts {
    pub method: Text,
    pub scheme: Text,
    pub authority: Text,
    pub path: Text,
}

// A field of this name.
fn field_of(alloc: Global, name: &[u8], value: Text) -> Result<Field, Memory>
    ensures { IfOk result (λ field. field ≡ field_of name.now value) }
{
    let name = Text::from_bytes(alloc, name)?;
    Ok(Field { name, value })
}

// Adds a field of this name.
fn push_field(
    alloc: Global,
    name: &[u8],
    value: Text,
    fields: &mut Sequence<Field>,
) -> Result<(), Memory>
    ensures { OnOk result (fields.new ≡ fields.old ++ (field_of name.now value ∷ [])) }
{
    let field = field_of(alloc, name, value)?;
    Ok(fields.push(field)?)
}

// The scheme of a request: that of its target in lower case, or the configured one.
fn scheme_of(alloc: Global, context: &Context<'_, '_>, target: Target<'_>) -> Result<Text, Memory>
    ensures { (line : RequestLine) → IfOk result (λ text. text
        ≡ scheme_of (request_parts (context_of context.now) line) (parts_of target.entry)) }
{
    match target.scheme {
        Some(text) => lowered(alloc, text),
        None => Text::from_bytes(alloc, scheme_text(context.scheme)),
    }
}

// The one `Host` line.
fn host_line<'m>(message: &MessageView<'m>) -> Option<LineView<'m>>
    ensures some { IfSome result (λ line.
        sole_value (values (lines_on Side.Header (message_of message.now)) (codes "host"))
        ≡ Ok (value line.raw.now)) }
    ensures none { IfNone result (IsTrue (is_err
        (sole_value (values (lines_on Side.Header (message_of message.now)) (codes "host"))))) }
{
    let mut lines = message.lines_named(Side::Header, b"host");
    let line = lines.next()?;
    if let Some(_) = lines.next() {
        return None;
    }
    Some(line)
}

// The authority as it is written: that of the target, or the value of the one `Host` line.
fn authority_text(
    alloc: Global,
    context: &Context<'_, '_>,
    target: Target<'_>,
) -> Result<Option<Text>, Memory>
    ensures { (line : RequestLine) → IfOk result (λ text. GivesText (named_authority
        (request_parts (context_of context.now) line) (parts_of target.entry).authority) text) }
{
    if let Some(text) = target.authority {
        return Ok(Some(Text::from_bytes(alloc, text)?));
    }
    let Some(line) = host_line(context.message) else {
        return Ok(None);
    };
    Ok(Some(value_of_line(alloc, line)?))
}

// Whether the text is an authority.
#[tactic(auto, using(crate::proofs::FromParts::authority_found))]
fn is_authority(text: &[u8], scheme: &[u8]) -> bool
    ensures yes { IsTrue result → (value : List ℕ) × IsAuthorityValue scheme.now text.now value }
    ensures no { (value : List ℕ) → IsAuthorityValue scheme.now text.now value → IsTrue result }
{
    authority_of(text, scheme).is_some()
}

// The authority, which is one under the scheme.
fn named_authority(
    alloc: Global,
    context: &Context<'_, '_>,
    target: Target<'_>,
    scheme: &[u8],
) -> Result<Text, FromFault>
    ensures { (line : RequestLine) → GivesAuthority (named_authority
        (request_parts (context_of context.now) line) (parts_of target.entry).authority)
        scheme.now result }
{
    let Some(text) = authority_text(alloc, context, target)? else {
        return Err(FromFault::NoAuthority);
    };
    if !is_authority(text.bytes(), scheme) {
        return Err(FromFault::NoAuthority);
    }
    Ok(text)
}

// The path, `/` where it is empty, with the query.
fn path_text(alloc: Global, path: &[u8], query: Option<&[u8]>) -> Result<Text, Memory>
    ensures { IfOk result (λ text. text ≡ path.now
        ++ query_text (option_map (λ query. query.now) query.entry)) }
{
    let mut text = Text::from_bytes(alloc, path)?;
    if let Some(query) = query {
        text.append(b"?")?;
        text.append(query)?;
    }
    Ok(text)
}

// What the pseudo-header fields of the request say.
#[tactic(auto, using(crate::proofs::FromLaws::no_target, crate::proofs::FromParts::no_path_form))]
fn request_texts(
    alloc: Global,
    context: &Context<'_, '_>,
    method: &[u8],
    target: &[u8],
) -> Result<RequestTexts, FromFault>
    ensures { (version : List ℕ) → GivesRequest (context_of context.now) (record {
      method = method.now;
      target = target.now;
      version = version;
    }) result }
{
    let Some(target) = cut_target(method, target) else {
        return Err(FromFault::NoForm);
    };
    let Some(path) = path_of(&target) else {
        return Err(FromFault::NoForm);
    };
    let scheme = scheme_of(alloc, context, target)?;
    let authority = named_authority(alloc, context, target, scheme.bytes())?;
    let path = path_text(alloc, path, target.query)?;
    let method = Text::from_bytes(alloc, method)?;
    Ok(RequestTexts {
        method,
        scheme,
        authority,
        path,
    })
}

// The pseudo-header fields of a request, in their order.
fn request_fields(alloc: Global, texts: RequestTexts) -> Result<Sequence<Field>, Memory>
    ensures { IfOk result (λ fields. fields ≡ pseudo_fields (request (control_in texts))) }
{
    let mut fields = Sequence::new(alloc);
    push_field(alloc, b":method", texts.method, &mut fields)?;
    push_field(alloc, b":scheme", texts.scheme, &mut fields)?;
    push_field(alloc, b":authority", texts.authority, &mut fields)?;
    push_field(alloc, b":path", texts.path, &mut fields)?;
    Ok(fields)
}

// The pseudo-header field of a response.
fn status_fields(alloc: Global, code: &[u8]) -> Result<Sequence<Field>, Memory>
    ensures { IfOk result (λ fields. fields ≡ pseudo_fields (response code.now)) }
{
    let code = Text::from_bytes(alloc, code)?;
    let mut fields = Sequence::new(alloc);
    fields.push(field_of(alloc, b":status", code)?)?;
    Ok(fields)
}

// The pseudo-header fields of the message (RFC 9113 section 8.3).
fn pseudo_fields(alloc: Global, context: &Context<'_, '_>) -> Result<Sequence<Field>, FromFault>
    ensures { GivesFields (context_of context.now) result }
{
    match context.message.start() {
        Start::Request { method, target, .. } => {
            let texts = request_texts(alloc, context, method, target)?;
            Ok(request_fields(alloc, texts)?)
        }
        Start::Status { code, .. } => Ok(status_fields(alloc, code)?),
    }
}

// Adds the field of a line, but where its name is one that isn't turned.
fn append_field(
    alloc: Global,
    line: LineView<'_>,
    fields: &mut Sequence<Field>,
) -> Result<(), Memory>
    ensures { OnOk result (fields.new
        ≡ fields.old ++ kept_fields (field_line_of line.entry ∷ [])) }
{
    let name = lowered(alloc, line.name)?;
    if is_refused_name(name.bytes()) {
        return Ok(());
    }
    let value = value_of_line(alloc, line)?;
    fields.push(Field { name, value })?;
    Ok(())
}

// Adds the fields of the side's lines, but those of the names that aren't turned.
fn append_kept(
    alloc: Global,
    message: &MessageView<'_>,
    side: Side,
    fields: &mut Sequence<Field>,
) -> Result<(), Memory>
    ensures { OnOk result (fields.new
        ≡ fields.old ++ kept_fields (lines_on side (message_of message.now))) }
{
    for index in 0..message.line_count(side) {
        append_field(alloc, message.line(side, index), fields)?;
    }
    Ok(())
}

// The content, chunks taken off.
fn content_of(alloc: Global, message: &MessageView<'_>) -> Result<Text, Memory>
    ensures { IfOk result (λ content. content ≡ message_content (message_of message.now)) }
{
    let mut content = Text::with_capacity(alloc, message.content_len())?;
    message.append_content(&mut content)?;
    Ok(content)
}

// The list of the message, by its cause.
#[tactic(auto, using(crate::proofs::FromParts::list_given))]
fn list_of(alloc: Global, context: &Context<'_, '_>) -> Result<FieldList, FromFault>
    ensures { GivesList (context_of context.now) result }
{
    let message = context.message;
    let mut fields = pseudo_fields(alloc, context)?;
    append_kept(alloc, message, Side::Header, &mut fields)?;
    let content = content_of(alloc, message)?;
    let mut trailers = Sequence::new(alloc);
    append_kept(alloc, message, Side::Trailer, &mut trailers)?;
    Ok(FieldList {
        fields,
        content,
        trailers,
    })
}

/// Turns a message into the list of fields that it stands for. Names are in lower case, values
/// without their folds, and its content is copied once.
pub fn from_message(alloc: Global, context: &Context<'_, '_>) -> Result<FieldList, FromFault>
    ensures ok { IfOk result (λ list. TurnsIntoList (context_of context.now) list) }
    ensures only { (list : FieldList) → TurnsIntoList (context_of context.now) list
        → MatchResult result (λ given. given ≡ list) (λ fault. fault ≡ FromFault.Memory) }

    // The first fault whose cause holds is answered, and no other.
    ensures fault { (fault : FromFault) → fault ≢ FromFault.Memory
        → AnswersWhere FromFault.Memory result fault (IsFromFault (context_of context.now) fault) }
{
    list_of(alloc, context)
}
