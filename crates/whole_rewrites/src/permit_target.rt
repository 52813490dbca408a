//! Which signatures permit another target of a request, and another `Host`.

ghost use Rattle.std.specs.Prelude.{◌≡◌, ◌↔◌, ℕ, List, IsTrue, IsFalse, IfOk, IfSome, IfNone};
ghost use Rattle.std.specs.List.{All, list_all};
ghost use Rattle.std.specs.Str.{str_to_ascii_lowercase};
ghost use Rattle.byte_grammar.specs.Classes.{is_visible};
ghost use Rattle.component_ids.specs.declared.params.SigParams.{SigParams};
ghost use Rattle.component_values.specs.Context.{context_of};
ghost use Rattle.msg_body.specs.Views.{message_of};
ghost use Rattle.msg_head.specs.Starts.{RequestLine};
ghost use Rattle.rewrite_script.specs.declared.rewrite.WholeRewrite.TheVariants.{Host, Origin};
ghost use Rattle.derived_values.specs.Targets.{TargetParts};
ghost use Rattle.derived_values.specs.Views.{authority_parts, parts_of};
ghost use Rattle.whole_rewrites.specs.Conditions.{IsMetBy, KeepsParamIn, query_param_names};
ghost use Rattle.whole_rewrites.specs.Covered.{covers_one_of};
ghost use Rattle.whole_rewrites.specs.Permitted.{HasOneHost, IsSameHost, MayChangeQuery, MayChangeTarget, NamesHost, PermitsWhole, whole_query_names};
ghost use Rattle.whole_rewrites.specs.Targets.{AreOneAuthority, HasTarget, OfTarget, query_in};
ghost use Rattle.whole_rewrites.specs.tools.Requests.{HasQuery, HaveOneValue, NamesOwn, scheme_in};

use crate::condition::WholeCondition;
use crate::covered::{covers_one_of, is_own_of};
use crate::target::target_line_of;
use component_ids::{ComponentId, SigParams};
use component_values::Context;
use derived_values::{
    Authority, ComparedQueries, Target, authority_of, param_name, query_of, scheme_text,
};
use msg_body::MessageView;
use msg_head::{LineView, Side};
use sfv_text::{Memory, Text};
use std::alloc::Global;

// ---- requests

/// The parts of the request's target; None of a response, and where the target is in no form.
fn target_of<'m>(message: &MessageView<'m>) -> Option<Target<'m>>
    ensures some { IfSome result (λ target. (line : RequestLine)
        × HasTarget (message_of message.now) line (parts_of target)) }
    ensures none { IfNone result ((line : RequestLine) (parts : TargetParts) →
        ¬ HasTarget (message_of message.now) line parts) }
{
    match target_line_of(message) {
        Some(line) => Some(line.parts),
        None => None,
    }
}

/// The value of the one line `Host`; None where there isn't one alone, and where a fold is within
/// its value.
fn host_of<'m>(message: &MessageView<'m>) -> Option<&'m [u8]>
    ensures some { IfSome result (λ host. HasOneHost (message_of message.now) host.now) }
    ensures none { IfNone result ((host : List ℕ) → HasOneHost (message_of message.now) host
        → IsFalse (list_all is_visible host)) }
{
    let mut lines = message.lines_named(Side::Header, b"host");
    let line = lines.next()?;
    match lines.next() {
        Some(_) => None,
        None => line.whole_value(),
    }
}

// ---- authorities

/// Whether both authorities have one value.
fn have_one_value(one: Authority<'_>, other: Authority<'_>) -> bool
    ensures { IsTrue result
        ↔ HaveOneValue (authority_parts one.entry) (authority_parts other.entry) }
{
    one.host.eq_ignore_ascii_case(other.host) && one.port == other.port
}

/// Whether under the scheme, in whatever case it is written, both texts are authorities, of one
/// value (RFC 9421 section 2.2.3).
fn are_one_authority(scheme: &[u8], one: &[u8], other: &[u8]) -> bool
    ensures { IsTrue result
        ↔ AreOneAuthority (str_to_ascii_lowercase scheme.now) one.now other.now }
{
    let Some(one) = authority_of(one, scheme) else {
        return false;
    };
    let Some(other) = authority_of(other, scheme) else {
        return false;
    };
    have_one_value(one, other)
}

// ---- another form of the target

/// Whether the target as it is sent isn't covered (RFC 9421 section 2.2.5).
pub(crate) fn is_target_uncovered(params: &SigParams) -> bool
    ensures { IsTrue result ↔ MayChangeTarget params.now }
{
    !covers_one_of(&[b"@request-target"], params)
}

/// Whether the scheme is the configured one, and the authority that of the one line `Host`.
fn is_own_authority(context: &Context<'_, '_>, scheme: &[u8], authority: &[u8]) -> bool
    ensures { IsTrue result ↔ NamesOwn (context_of context.now) scheme.now authority.now }
{
    let Some(host) = host_of(context.message) else {
        return false;
    };
    let configured = scheme_text(context.scheme);
    scheme.eq_ignore_ascii_case(configured) && are_one_authority(configured, host, authority)
}

/// Whether the target names the configured scheme and the authority of the one line `Host`.
fn names_host(context: &Context<'_, '_>) -> bool
    ensures { IsTrue result ↔ OfTarget (context_of context.now).message
        (NamesHost (context_of context.now)) }
{
    let Some(target) = target_of(context.message) else {
        return false;
    };
    let Some(scheme) = target.scheme else {
        return false;
    };
    match target.authority {
        Some(authority) => is_own_authority(context, scheme, authority),
        None => false,
    }
}

/// What the rewriting `origin` asks: what the target names is what the message has without it.
pub(crate) fn origin_condition(context: &Context<'_, '_>) -> WholeCondition<'static>
    ensures { (params : SigParams) → IsMetBy params result
        ↔ PermitsWhole (context_of context.now) Origin params }
{
    if names_host(context) {
        WholeCondition::TargetUncovered
    } else {
        WholeCondition::Never
    }
}

// ---- another `Host`

/// The scheme of the request, in whatever case it is written (RFC 9421 section 2.2.4).
fn scheme_of<'m>(context: &Context<'_, '_>, target: &Target<'m>) -> &'m [u8]
    ensures { str_to_ascii_lowercase result.now
        ≡ scheme_in (context_of context.now) (parts_of target.now) }
{
    match target.scheme {
        Some(text) => text,
        None => scheme_text(context.scheme),
    }
}

/// Whether under the scheme of the request the line is of the authority that the one line `Host`
/// has.
fn is_same_host(context: &Context<'_, '_>, line: LineView<'_>) -> bool
    ensures { IsTrue result ↔ IsSameHost (context_of context.now) line.entry.raw.now }
{
    let Some(target) = target_of(context.message) else {
        return false;
    };
    let Some(host) = host_of(context.message) else {
        return false;
    };
    match line.whole_value() {
        Some(text) => are_one_authority(scheme_of(context, &target), host, text),
        None => false,
    }
}

/// What the rewriting `host` to this text asks: `@authority` stays (RFC 9421 section 2.2.3).
pub(crate) fn host_condition(context: &Context<'_, '_>, text: &[u8]) -> WholeCondition<'static>
    ensures { (params : SigParams) → IsMetBy params result
        ↔ PermitsWhole (context_of context.now) (Host text.now) params }
{
    let line = LineView {
        name: b"host",
        raw: text,
    };
    if is_same_host(context, line) {
        WholeCondition::HostUncovered
    } else {
        WholeCondition::Never
    }
}

// ---- another query

/// The components that have a query whole in their values.
const WHOLE_QUERY_NAMES: [&[u8]; 3] = [b"@query", b"@target-uri", b"@request-target"];

/// The query of the text, without the `?` that the text begins with.
fn query_in(text: &Option<Text>) -> &[u8]
    ensures { result.now ≡ query_in text.now }
{
    match text {
        Some(text) => text.bytes().get(1..).unwrap_or(b""),
        None => b"",
    }
}

/// The query of the request, empty where there is no `?`; None where its target has no path, and
/// where there is no target.
fn request_query<'m>(message: &MessageView<'m>) -> Option<&'m [u8]>
    ensures some { IfSome result (λ query. HasQuery (message_of message.now) query.now) }
    ensures none { IfNone result ((query : List ℕ) → ¬ HasQuery (message_of message.now) query) }
{
    let target = target_of(message)?;
    let query = query_of(&target)?;
    Some(query.unwrap_or(b""))
}

/// Whether the component is no parameter of the query, or both queries have the same values of it.
fn keeps_param(queries: &ComparedQueries, id: &ComponentId) -> bool
    ensures { IsTrue result ↔ KeepsParamIn queries.now.query queries.now.other id.now }
{
    !is_own_of(&[b"@query-param"], id) || queries.have_same_values(param_name(&id.params))
}

/// The same of each component that is a parameter of the query.
fn keeps_each(queries: &ComparedQueries, ids: &[ComponentId]) -> bool
    ensures { IsTrue result ↔ All (KeepsParamIn queries.now.query queries.now.other) ids.now }
{
    for id in ids {
        if !keeps_param(queries, id) {
            return false;
        }
    }
    true
}

/// Whether neither the query is covered whole, nor a parameter of it.
pub(crate) fn is_query_uncovered(params: &SigParams) -> bool
    ensures { IsTrue result ↔ (IsFalse (covers_one_of whole_query_names params.now)
        × IsFalse (covers_one_of query_param_names params.now)) }
{
    !covers_one_of(&WHOLE_QUERY_NAMES, params) && !covers_one_of(&[b"@query-param"], params)
}

/// Whether the query isn't covered whole, and both queries have the same values of each parameter
/// that is covered (RFC 9421 section 2.2.8).
pub(crate) fn is_query_kept(queries: &ComparedQueries, params: &SigParams) -> bool
    ensures { IsTrue result ↔ (IsFalse (covers_one_of whole_query_names params.now)
        × All (KeepsParamIn queries.now.query queries.now.other) params.now.ids) }
{
    !covers_one_of(&WHOLE_QUERY_NAMES, params) && keeps_each(queries, params.ids.as_slice())
}

/// What the rewriting `query` to this text asks. Each query is read once.
pub(crate) fn query_condition(
    alloc: Global,
    message: &MessageView<'_>,
    text: &Option<Text>,
) -> Result<WholeCondition<'static>, Memory>
    ensures { IfOk result (λ condition. (params : SigParams) → IsMetBy params condition
        ↔ MayChangeQuery (message_of message.now) text.now params) }
{
    match request_query(message) {
        Some(query) => {
            let queries = ComparedQueries::of(alloc, query, query_in(text))?;
            Ok(WholeCondition::QueryKept { queries })
        }
        None => Ok(WholeCondition::QueryUncovered),
    }
}
