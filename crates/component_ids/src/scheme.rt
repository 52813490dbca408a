//! The scheme of a target.

/// The scheme of a request's target. No message says it, so it has to be configured (RFC 9421
/// section 2.2.4).
#[derive(Clone, Copy, PartialEq, Eq)]
pub enum Scheme {
    /// `http`
    Http,
    /// `https`
    Https,
}
