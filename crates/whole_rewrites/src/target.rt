//! The bytes of a message with another request target (RFC 9112 section 3.2).

ghost use Rattle.std.specs.Prelude.{◌≡◌, ◌↔◌, ◌≤◌, ◌++◌, ◌+◌, ℕ, List, option_map, length, IfSome, IfNone, IsTrue, OnOk, codes};
ghost use Rattle.component_values.specs.Context.{HasWholeMessage, context_of};
ghost use Rattle.line_rewrites.specs.Sound.{Fits};
ghost use Rattle.msg_body.specs.Views.{message_of};
ghost use Rattle.msg_head.specs.Starts.{RequestLine, request, request_text};
ghost use Rattle.msg_head.specs.declared.limits.TheConstants.{MAX_HEAD_BYTES};
ghost use Rattle.rewrite_script.specs.Lines.{is_query};
ghost use Rattle.rewrite_script.specs.declared.rewrite.WholeRewrite.TheVariants.{Absolute, Origin, Query};
ghost use Rattle.derived_values.specs.Targets.{SpellsTarget, TargetParts, query_text};
ghost use Rattle.derived_values.specs.Views.{parts_of, request_line_of};
ghost use Rattle.whole_rewrites.specs.Targets.{HasTarget, HasOtherQuery, IsOriginOf};
ghost use Rattle.whole_rewrites.specs.tools.Judged.{Offers};
ghost use Rattle.whole_rewrites.specs.tools.Retargeted.{NamesAuthority, Retargets, new_target_text};

use component_ids::ComponentId;
use component_values::Context;
use derived_values::{
    Form, NoValue, Target, TargetLine, derived_value, path_of, query_of, scheme_text, target_line,
};
use line_rewrites::ApplyFault;
use msg_body::MessageView;
use msg_head::MAX_HEAD_BYTES;
use sfv_text::{Memory, Params, Text};
use std::alloc::Global;

/// The line of the request; None of a response, and where the target is in no form.
pub(crate) fn target_line_of<'m>(message: &MessageView<'m>) -> Option<TargetLine<'m>>
    ensures some { IfSome result (λ line.
        HasTarget (message_of message.now) (request_line_of line) (parts_of line.parts)) }
    ensures none { IfNone result ((line : RequestLine) (parts : TargetParts) →
        ¬ HasTarget (message_of message.now) line parts) }
{
    target_line(message.start())
}

/// A new target, in pieces.
#[derive(Clone, Copy)]
pub(crate) struct NewTarget<'t> {
    pub first: &'t [u8],
    pub second: &'t [u8],
    pub third: &'t [u8],
    pub last: &'t [u8],
}

/// How many bytes the target has, or the most that a `usize` holds.
fn len_of(target: NewTarget<'_>) -> usize {
    target
        .first
        .len()
        .saturating_add(target.second.len())
        .saturating_add(target.third.len())
        .saturating_add(target.last.len())
}

/// Adds the target at the end.
fn append_target(target: NewTarget<'_>, text: &mut Text) -> Result<(), Memory>
    ensures { OnOk result (text.new ≡ text.old ++ new_target_text target.entry) }
{
    text.append(target.first)?;
    text.append(target.second)?;
    text.append(target.third)?;
    text.append(target.last)
}

/// What comes after the line's target in the bytes, which begin with the line.
fn after_target<'b>(line: &TargetLine<'_>, bytes: &'b [u8]) -> &'b [u8]
    requires { (more : List ℕ) × (bytes.now ≡ request_text (request_line_of line.now) ++ more) }
    ensures { (more : List ℕ) → bytes.now ≡ request_text (request_line_of line.now) ++ more
        → result.now ≡ codes " " ++ (line.now.version.now ++ (codes "\r\n" ++ more)) }
{
    &bytes[line.method.len() + line.target.len() + 1..]
}

/// Whether the line has room in a head, where it has these bytes up to its target's end.
fn has_room(line: &TargetLine<'_>, len: usize) -> bool
    requires { length line.now.version.now + 5 ≤ MAX_HEAD_BYTES }
    ensures { IsTrue result ↔ (len + (length line.now.version.now + 5) ≤ MAX_HEAD_BYTES) }
{
    len <= MAX_HEAD_BYTES - (line.version.len() + 5)
}

/// The bytes, which begin with the line, with the new target in it.
fn retargeted(
    alloc: Global,
    bytes: &[u8],
    line: &TargetLine<'_>,
    target: NewTarget<'_>,
) -> Result<Text, ApplyFault>
    requires fits { Fits (request (request_line_of line.now)) }
    requires begins { (more : List ℕ)
        × (bytes.now ≡ request_text (request_line_of line.now) ++ more) }
    ensures { (more : List ℕ) → bytes.now ≡ request_text (request_line_of line.now) ++ more
        → Retargets (request_line_of line.now) (new_target_text target.entry) more result }
{
    let mut text = Text::with_capacity(alloc, bytes.len().saturating_add(len_of(target)))?;
    text.append(line.method)?;
    text.append(b" ")?;
    append_target(target, &mut text)?;
    if !has_room(line, text.bytes().len()) {
        return Err(ApplyFault::NotApplicable);
    }
    text.append(after_target(line, bytes))?;
    Ok(text)
}

/// What `origin` makes of the target.
fn origin_target<'m>(target: &Target<'m>) -> Option<NewTarget<'m>>
    ensures some { IfSome result (λ made.
        IsOriginOf (parts_of target.now) (new_target_text made)) }
    ensures none { IfNone result ((made : List ℕ) → ¬ IsOriginOf (parts_of target.now) made) }
{
    let Form::Absolute = target.form else {
        return None;
    };
    let Some(path) = path_of(target) else {
        return None;
    };
    let (mark, query) = match target.query {
        Some(query) => (b"?".as_slice(), query),
        None => (b"".as_slice(), b"".as_slice()),
    };
    Some(NewTarget {
        first: path,
        second: mark,
        third: query,
        last: b"",
    })
}

/// The bytes of the message after `origin`. Whether they are a message within the limits isn't
/// asked.
pub(crate) fn in_origin_form(alloc: Global, context: &Context<'_, '_>) -> Result<Text, ApplyFault>
    requires whole { HasWholeMessage (context_of context.now) }
    ensures { Offers (context_of context.now) Origin result }
{
    let Some(line) = target_line_of(context.message) else {
        return Err(ApplyFault::NotApplicable);
    };
    let Some(target) = origin_target(&line.parts) else {
        return Err(ApplyFault::NotApplicable);
    };
    retargeted(alloc, context.message.bytes(), &line, target)
}

/// The value of `@authority` (RFC 9421 section 2.2.3).
fn authority_text(alloc: Global, context: &Context<'_, '_>) -> Result<Text, ApplyFault>
    ensures { NamesAuthority (context_of context.now) result }
{
    let id = ComponentId {
        name: Text::from_bytes(alloc, b"@authority")?,
        params: Params::new(alloc),
    };
    match derived_value(alloc, context.message, context.scheme, &id) {
        Ok(value) => Ok(value.text(alloc)?),
        Err(NoValue::Lacks(_)) => Err(ApplyFault::NotApplicable),
        Err(NoValue::Memory) => unreachable!(), // only a parameter of a query takes memory
    }
}

/// The bytes of the message after `absolute`. Whether they are a message within the limits isn't
/// asked.
pub(crate) fn in_absolute_form(alloc: Global, context: &Context<'_, '_>) -> Result<Text, ApplyFault>
    requires whole { HasWholeMessage (context_of context.now) }
    ensures { Offers (context_of context.now) Absolute result }
{
    let Some(line) = target_line_of(context.message) else {
        return Err(ApplyFault::NotApplicable);
    };
    let Form::Origin = line.parts.form else {
        return Err(ApplyFault::NotApplicable);
    };
    let authority = match authority_text(alloc, context) {
        Ok(authority) => authority,
        Err(fault) => return Err(fault),
    };
    let target = NewTarget {
        first: scheme_text(context.scheme),
        second: b"://",
        third: authority.bytes(),
        last: line.target,
    };
    retargeted(alloc, context.message.bytes(), &line, target)
}

/// What is before the query of the target, which ends in the query and its mark.
fn before_query<'m>(target: &'m [u8], query: Option<&[u8]>) -> &'m [u8]
    requires { (before : List ℕ)
        × (target.now ≡ before ++ query_text (option_map (λ text. text.now) query)) }
    ensures { target.now ≡ result.now ++ query_text (option_map (λ text. text.now) query.entry) }
{
    match query {
        Some(text) => &target[..target.len() - (text.len() + 1)],
        None => target,
    }
}

/// What `query` makes of the line's target, which has a query or may have one.
fn query_target<'t>(line: &TargetLine<'t>, text: &'t Option<Text>) -> Option<NewTarget<'t>>
    requires { SpellsTarget line.now.method.now line.now.target.now (parts_of line.now.parts) }
    ensures some { IfSome result (λ made. HasOtherQuery text.now (request_line_of line.now)
        (parts_of line.now.parts) (new_target_text made)) }
    ensures none { IfNone result ((made : List ℕ) → ¬ HasOtherQuery text.now
        (request_line_of line.now) (parts_of line.now.parts) made) }
{
    let Some(query) = query_of(&line.parts) else {
        return None;
    };
    let added = match text {
        Some(text) => text.bytes(),
        None => b"",
    };
    Some(NewTarget {
        first: before_query(line.target, query),
        second: added,
        third: b"",
        last: b"",
    })
}

/// The bytes of the message after `query`. Whether they are a message within the limits isn't
/// asked.
pub(crate) fn with_query(
    alloc: Global,
    context: &Context<'_, '_>,
    text: &Option<Text>,
) -> Result<Text, ApplyFault>
    requires writable { IsTrue (is_query text.now) }
    requires whole { HasWholeMessage (context_of context.now) }
    ensures { Offers (context_of context.now) (Query text.now) result }
{
    let Some(line) = target_line_of(context.message) else {
        return Err(ApplyFault::NotApplicable);
    };
    let Some(target) = query_target(&line, text) else {
        return Err(ApplyFault::NotApplicable);
    };
    retargeted(alloc, context.message.bytes(), &line, target)
}
