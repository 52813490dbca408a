//! The value of a derived component.

ghost use Rattle.std.specs.Prelude.{◌≡◌, ◌++◌, ◌∷◌, ℕ, List, IfOk};
ghost use Rattle.std.specs.Str.{byte};
ghost use Rattle.derived_values.specs.tools.Values.{target_uri_text};

use crate::authority::Authority;
use crate::feed::{feed_lowered, feed_marked};
use sfv_text::{Absorb, FedText, Memory, Text};
use std::alloc::Global;
use std::marker::Model;

/// The parts of a target URI (RFC 9421 section 2.2.2).
#[derive(Clone, Copy)]
pub(crate) struct TargetUri<'m> {
    /// In whatever case it is written.
    pub scheme: &'m [u8],
    pub authority: Authority<'m>,
    pub path: &'m [u8],
    /// What comes after `?`; None where there is no `?`.
    pub query: Option<&'m [u8]>,
}

impl<'m> TargetUri<'m> {
    /// Feeds the URI.
    fn feed<A: Absorb>(&self, into: &mut A)
        ensures { (fed : List ℕ) → A.absorbed into.old fed
            → A.absorbed into.new (fed ++ target_uri_text self.now) }
    {
        feed_lowered(self.scheme, into);
        into.absorb(b"://");
        self.authority.feed(into);
        into.absorb(self.path);
        feed_marked(b'?', self.query, into);
    }
}

/// What a value is made of.
#[derive(Drop)]
pub(crate) enum Parts<'m> {
    /// Bytes of the message: `@method`, `@request-target`, `@path` and `@status`.
    Bytes(&'m [u8]),
    /// In whatever case it is written: `@scheme`.
    Scheme(&'m [u8]),
    /// `@authority`.
    Authority(Authority<'m>),
    /// What comes after `?`: `@query`.
    Query(&'m [u8]),
    /// `@target-uri`.
    TargetUri(TargetUri<'m>),
    /// `@query-param`.
    Text(Text),
}

/// The value of a derived component, borrowed from its message, but for that of `@query-param`. A
/// contract sees it as its text.
#[derive(Drop)]
pub struct Derived<'m> {
    pub(crate) parts: Parts<'m>,
}

impl<'m> Model for Derived<'m> {
    ghost use Rattle.std.specs.Prelude.{ℕ, List};
    ghost use Rattle.derived_values.specs.tools.Values.{parts_text};

    ghost Value = { List ℕ };

    ghost view = { λ derived. parts_text derived.parts };
}

/// Feeds `?` and the query.
fn feed_query<A: Absorb>(query: &[u8], into: &mut A)
    ensures { (fed : List ℕ) → A.absorbed into.old fed
        → A.absorbed into.new (fed ++ byte "?" ∷ query.now) }
{
    into.absorb(b"?");
    into.absorb(query);
}

impl<'m> Derived<'m> {
    /// The text of the value.
    pub fn text(&self, alloc: Global) -> Result<Text, Memory>
        ensures { IfOk result (λ text. text ≡ self.now) }
    {
        let mut fed = FedText::new(alloc);
        self.feed(&mut fed);
        fed.into_text()
    }

    /// Feeds the value. It takes no memory and can't fail.
    pub fn feed<A: Absorb>(&self, into: &mut A)
        ensures { (fed : List ℕ) → A.absorbed into.old fed
            → A.absorbed into.new (fed ++ self.now) }
    {
        match &self.parts {
            Parts::Bytes(text) => into.absorb(text),
            Parts::Scheme(text) => feed_lowered(text, into),
            Parts::Authority(authority) => authority.feed(into),
            Parts::Query(query) => feed_query(query, into),
            Parts::TargetUri(uri) => uri.feed(into),
            Parts::Text(text) => into.absorb(text.bytes()),
        }
    }
}
