//! The values of derived components, and how a component lacks one (RFC 9421 section 2.2), with
//! what they are drawn from: request targets (RFC 9112 section 3.2), authorities (RFC 3986 section
//! 3.2) and the parameters of queries.
//!
//! ```text
//! // over `GET http://EXAMPLE.com:80?a=1 HTTP/1.1`
//! let value = derived_value(alloc, &message, Scheme::Https, &authority)?;
//! value.feed(&mut hasher);                                   // example.com
//! derived_value(alloc, &message, Scheme::Https, &status)     // Err(NoValue::Lacks(..))
//! let target = cut_target(b"GET", b"http://EXAMPLE.com:80?a=1+2")?; // form is Form::Absolute
//! path_of(&target)  // Some(b"/")
//! query_of(&target) // Some(Some(b"a=1+2"))
//! let authority = authority_of(b"EXAMPLE.com:80", b"http")?;
//! authority.port    // None, since 80 is the default port of http
//! query_param(alloc, b"a=1+2", b"a") // Ok(ParamFound::One(..)), of `1%202`
//! ```
//!
//! A value and the parts of a target are borrowed from their message; only the calls of query
//! parameters take memory.
#![tactic(auto)]

mod authority;
mod derived;
mod feed;
mod lack;
mod laws;
mod line;
mod parts;
mod query;
mod query_params;
mod target;
mod target_laws;
mod uri_byte;
mod value;

pub use authority::{Authority, authority_of};
pub use derived::{
    DerivedName, TargetName, derived_value, derived_value_in, param_name, scheme_text,
};
pub use feed::{feed_lowered, feed_marked};
pub use lack::{Lack, NoValue};
pub use laws::components_depend_on_their_parts;
pub use line::{TargetLine, target_line};
pub use query::{ParamFound, encoded_texts_are_printable, query_param};
pub use query_params::{ComparedQueries, QueryParams, query_param_in};
pub use target::{Form, Target, cut_target, path_of, query_of};
pub use target_laws::{
    a_start_line_is_of_one_target, a_target_has_one_reading, targets_are_decided,
    values_are_authorities, values_are_visible,
};
pub use value::Derived;
