//! Derived components (RFC 9421 section 2.2).

ghost use Rattle.std.specs.Prelude.{◌≡◌, Some, Ok, Err, MatchResult, IsErrOf, codes};
ghost use Rattle.std.specs.Str.{str_to_ascii_lowercase};
ghost use Rattle.msg_head.specs.declared.error.Side.{Side};
ghost use Rattle.msg_body.specs.Views.{message_of, lines_on};
ghost use Rattle.msg_head.specs.Values.{value, values};
ghost use Rattle.derived_values.specs.Targets.{path_of, query_of};
ghost use Rattle.derived_values.specs.Views.{parts_of};
ghost use Rattle.derived_values.specs.Derived.{derived_of, target_name_of, scheme_text, scheme_of, sole_value, AuthorityRow, TargetAuthorityRow, TargetUriRow, TargetRow, FormedRow, RequestRow, DerivedRow, path_value, query_value, param_value, param_name, response_value};
ghost use Rattle.derived_values.specs.Answers.{AnswersRow};
ghost use Rattle.derived_values.specs.tools.Requests.{request_parts};
ghost use Rattle.derived_values.specs.tools.Values.{GivesAuthority, GivesParts, AnswersParts};

use crate::authority::{Authority, authority_of};
use crate::lack::{Lack, NoValue};
use crate::query::ParamFound;
use crate::query_params::{QueryParams, query_param_in};
use crate::target::{Target, cut_target, path_of, query_of};
use crate::value::{Derived, Parts, TargetUri};
use component_ids::{ComponentId, Scheme};
use msg_body::MessageView;
use msg_head::{LineView, Side, Start};
use sfv_text::{Params, Text};
use std::alloc::Global;

/// A component that is drawn from the parts of a request's target.
#[derive(Clone, Copy, PartialEq, Eq)]
pub enum TargetName {
    /// `@target-uri` (RFC 9421 section 2.2.2).
    TargetUri,
    /// `@authority` (section 2.2.3).
    Authority,
    /// `@scheme` (section 2.2.4).
    Scheme,
    /// `@path` (section 2.2.6).
    Path,
    /// `@query` (section 2.2.7).
    Query,
    /// `@query-param` (section 2.2.8).
    QueryParam,
}

/// A derived component, by its name.
#[derive(Clone, Copy, PartialEq, Eq)]
pub enum DerivedName {
    /// `@method` (RFC 9421 section 2.2.1).
    Method,
    /// `@request-target` (section 2.2.5).
    RequestTarget,
    /// `@status` (section 2.2.9).
    Status,
    /// One that is drawn from the target.
    OfTarget(TargetName),
}

/// A request, the scheme that is configured, and the parameters of the component that is asked
/// for.
#[derive(Clone, Copy)]
pub(crate) struct Request<'a, 'm> {
    pub message: &'a MessageView<'m>,
    pub method: &'m [u8],
    pub target: &'m [u8],
    pub scheme: Scheme,
    pub params: &'a Params,
}

fn target_name_of(name: &[u8]) -> Option<TargetName>
    ensures { result ≡ target_name_of name.now }
{
    if name == b"@target-uri".as_slice() {
        return Some(TargetName::TargetUri);
    }
    if name == b"@authority".as_slice() {
        return Some(TargetName::Authority);
    }
    if name == b"@scheme".as_slice() {
        return Some(TargetName::Scheme);
    }
    if name == b"@path".as_slice() {
        return Some(TargetName::Path);
    }
    if name == b"@query".as_slice() {
        return Some(TargetName::Query);
    }
    if name == b"@query-param".as_slice() {
        return Some(TargetName::QueryParam);
    }
    None
}

fn derived_of(name: &[u8]) -> Option<DerivedName>
    ensures { result ≡ derived_of name.now }
{
    if name == b"@method".as_slice() {
        return Some(DerivedName::Method);
    }
    if name == b"@request-target".as_slice() {
        return Some(DerivedName::RequestTarget);
    }
    if name == b"@status".as_slice() {
        return Some(DerivedName::Status);
    }
    target_name_of(name).map(DerivedName::OfTarget)
}

/// The scheme that is configured, in lower case.
pub fn scheme_text(scheme: Scheme) -> &'static [u8]
    ensures is { result.now ≡ scheme_text scheme }
    ensures lower { str_to_ascii_lowercase result.now ≡ scheme_text scheme }
{
    match scheme {
        Scheme::Http => b"http",
        Scheme::Https => b"https",
    }
}

/// The one `Host` line.
fn host_line<'m>(message: &MessageView<'m>) -> Result<LineView<'m>, Lack>
    ensures { MatchResult result
        (λ line. sole_value (values (lines_on Side.Header (message_of message.now)) (codes "host"))
        ≡ Ok (value line.raw.now))
        (λ lack. sole_value (values (lines_on Side.Header (message_of message.now)) (codes "host"))
        ≡ Err lack) }
{
    let mut lines = message.lines_named(Side::Header, b"host");
    let Some(line) = lines.next() else {
        return Err(Lack::Absent);
    };
    if let Some(_) = lines.next() {
        return Err(Lack::Ambiguous);
    }
    Ok(line)
}

/// The authority that the text is.
fn judge_authority<'m>(text: &'m [u8], scheme: &[u8]) -> Result<Authority<'m>, Lack>
    ensures { GivesAuthority (AuthorityRow (str_to_ascii_lowercase scheme.now) (Ok text.now))
        result }
{
    match authority_of(text, scheme) {
        Some(authority) => Ok(authority),
        None => Err(Lack::Underivable),
    }
}

/// The authority that the one `Host` line names. A value with a fold within it is none.
fn host_authority<'m>(message: &MessageView<'m>, scheme: &[u8]) -> Result<Authority<'m>, Lack>
    ensures { GivesAuthority (AuthorityRow (str_to_ascii_lowercase scheme.now) (sole_value
        (values (lines_on Side.Header (message_of message.now)) (codes "host")))) result }
{
    let line = host_line(message)?;
    match line.whole_value() {
        Some(text) => judge_authority(text, scheme),
        None => Err(Lack::Underivable),
    }
}

/// `@path`.
fn path_value<'m>(target: &Target<'m>) -> Result<Parts<'m>, Lack>
    ensures { GivesParts (λ answer. answer ≡ path_value (parts_of target.now)) result }
{
    match path_of(target) {
        Some(path) => Ok(Parts::Bytes(path)),
        None => Err(Lack::Underivable),
    }
}

/// `@query`.
fn query_value<'m>(target: &Target<'m>) -> Result<Parts<'m>, Lack>
    ensures { GivesParts (λ answer. answer ≡ query_value (parts_of target.now)) result }
{
    match query_of(target) {
        Some(query) => Ok(Parts::Query(query.unwrap_or(b""))),
        None => Err(Lack::Underivable),
    }
}

/// The String that the parameter `name` is.
pub fn param_name(params: &Params) -> &[u8]
    ensures { result.now ≡ param_name params.now }
{
    match params.string(b"name") {
        Some(text) => text.bytes(),
        None => b"",
    }
}

impl<'a, 'm> Request<'a, 'm> {
    /// `@scheme`, in whatever case it is written.
    fn scheme_of(self, target: &Target<'m>) -> &'m [u8]
        ensures { str_to_ascii_lowercase result.now
            ≡ scheme_of (request_parts self.entry) (parts_of target.now) }
    {
        match target.scheme {
            Some(text) => text,
            None => scheme_text(self.scheme),
        }
    }

    /// `@authority`.
    fn authority_value(self, target: &Target<'m>) -> Result<Authority<'m>, Lack>
        ensures { GivesAuthority (TargetAuthorityRow (request_parts self.entry)
            (parts_of target.now)) result }
    {
        let scheme = self.scheme_of(target);
        match target.authority {
            Some(text) => judge_authority(text, scheme),
            None => host_authority(self.message, scheme),
        }
    }

    /// `@target-uri`.
    fn target_uri(self, target: &Target<'m>) -> Result<Parts<'m>, Lack>
        ensures { GivesParts (TargetUriRow (path_of (parts_of target.now))
            (request_parts self.entry) (parts_of target.now)) result }
    {
        let Some(path) = path_of(target) else {
            return Err(Lack::Underivable);
        };
        let authority = self.authority_value(target)?;
        Ok(Parts::TargetUri(TargetUri {
            scheme: self.scheme_of(target),
            authority,
            path,
            query: target.query,
        }))
    }

    /// `@query-param`.
    fn param_value(
        self,
        alloc: Global,
        target: &Target<'m>,
        kept: &mut Option<QueryParams>,
    ) -> Result<Text, NoValue>
        ensures { AnswersRow (λ answer. answer
            ≡ param_value (query_of (parts_of target.now)) self.entry.params.now) result }
    {
        let Some(query) = query_of(target) else {
            return Err(NoValue::Lacks(Lack::Underivable));
        };
        match query_param_in(alloc, query.unwrap_or(b""), param_name(self.params), kept)? {
            ParamFound::None => Err(NoValue::Lacks(Lack::Absent)),
            ParamFound::One(text) => Ok(text),
            ParamFound::Many => Err(NoValue::Lacks(Lack::Ambiguous)),
        }
    }

    /// What is drawn from the parts of a target.
    fn target_value(
        self,
        alloc: Global,
        name: TargetName,
        target: &Target<'m>,
        kept: &mut Option<QueryParams>,
    ) -> Result<Parts<'m>, NoValue>
        ensures row { AnswersParts (TargetRow name self.entry.params.now
            (request_parts self.entry) (parts_of target.now)) result }
        ensures needed { IsErrOf result NoValue.Memory → name ≡ TargetName.QueryParam }
    {
        match name {
            TargetName::TargetUri => Ok(self.target_uri(target)?),
            TargetName::Authority => Ok(Parts::Authority(self.authority_value(target)?)),
            TargetName::Scheme => Ok(Parts::Scheme(self.scheme_of(target))),
            TargetName::Path => Ok(path_value(target)?),
            TargetName::Query => Ok(query_value(target)?),
            TargetName::QueryParam => Ok(Parts::Text(self.param_value(alloc, target, kept)?)),
        }
    }

    /// What is drawn from a target that may be in no form.
    fn formed_value(
        self,
        alloc: Global,
        name: TargetName,
        kept: &mut Option<QueryParams>,
    ) -> Result<Parts<'m>, NoValue>
        ensures row { AnswersParts (FormedRow name self.entry.params.now
            (request_parts self.entry)) result }
        ensures needed { IsErrOf result NoValue.Memory → name ≡ TargetName.QueryParam }
    {
        let Some(target) = cut_target(self.method, self.target) else {
            return Err(NoValue::Lacks(Lack::Underivable));
        };
        self.target_value(alloc, name, &target, kept)
    }

    /// A derived component of a request.
    fn value(
        self,
        alloc: Global,
        derived: DerivedName,
        kept: &mut Option<QueryParams>,
    ) -> Result<Parts<'m>, NoValue>
        ensures row { AnswersParts (RequestRow derived self.entry.params.now
            (request_parts self.entry)) result }
        ensures needed { IsErrOf result NoValue.Memory
            → derived ≡ DerivedName.OfTarget TargetName.QueryParam }
    {
        match derived {
            DerivedName::Method => Ok(Parts::Bytes(self.method)),
            DerivedName::RequestTarget => Ok(Parts::Bytes(self.target)),
            DerivedName::Status => Err(NoValue::Lacks(Lack::Underivable)),
            DerivedName::OfTarget(name) => self.formed_value(alloc, name, kept),
        }
    }
}

/// A derived component of a response.
fn response_value(derived: DerivedName, code: &[u8]) -> Result<Parts<'_>, Lack>
    ensures { GivesParts (λ answer. answer ≡ response_value derived code.now) result }
{
    match derived {
        DerivedName::Status => Ok(Parts::Bytes(code)),
        _ => Err(Lack::Underivable),
    }
}

/// What the value of a derived component of the message is made of.
fn derived_parts<'a, 'm>(
    alloc: Global,
    message: &'a MessageView<'m>,
    scheme: Scheme,
    id: &'a ComponentId,
    kept: &mut Option<QueryParams>,
) -> Result<Parts<'m>, NoValue>
    ensures row { AnswersParts (DerivedRow (derived_of id.now.name) id.now.params scheme
        (lines_on Side.Header (message_of message.now)) message.now.head.start) result }
    ensures needed { IsErrOf result NoValue.Memory
        → derived_of id.now.name ≡ Some (DerivedName.OfTarget TargetName.QueryParam) }
{
    let Some(derived) = derived_of(id.name.bytes()) else {
        return Err(NoValue::Lacks(Lack::Underivable));
    };
    match message.start() {
        Start::Request { method, target, .. } => {
            let request = Request {
                message,
                method,
                target,
                scheme,
                params: &id.params,
            };
            request.value(alloc, derived, kept)
        }
        Start::Status { code, .. } => Ok(response_value(derived, code)?),
    }
}

/// The value of a derived component of the message, or how the message lacks it (RFC 9421 section
/// 2.2). A name that no derived component has is underivable. The parameters of the query are kept
/// for the next component that is one of them; only such a component takes memory.
pub fn derived_value_in<'m>(
    alloc: Global,
    message: &MessageView<'m>,
    scheme: Scheme,
    id: &ComponentId,
    kept: &mut Option<QueryParams>,
) -> Result<Derived<'m>, NoValue>
    ensures row { AnswersRow (DerivedRow (derived_of id.now.name) id.now.params scheme
        (lines_on Side.Header (message_of message.now)) message.now.head.start) result }
    ensures needed { IsErrOf result NoValue.Memory
        → derived_of id.now.name ≡ Some (DerivedName.OfTarget TargetName.QueryParam) }
{
    let parts = derived_parts(alloc, message, scheme, id, kept)?;
    Ok(Derived { parts })
}

/// What `derived_value_in` answers, with nothing kept.
pub fn derived_value<'m>(
    alloc: Global,
    message: &MessageView<'m>,
    scheme: Scheme,
    id: &ComponentId,
) -> Result<Derived<'m>, NoValue>
    ensures row { AnswersRow (DerivedRow (derived_of id.now.name) id.now.params scheme
        (lines_on Side.Header (message_of message.now)) message.now.head.start) result }
    ensures needed { IsErrOf result NoValue.Memory
        → derived_of id.now.name ≡ Some (DerivedName.OfTarget TargetName.QueryParam) }
{
    derived_value_in(alloc, message, scheme, id, &mut None)
}
