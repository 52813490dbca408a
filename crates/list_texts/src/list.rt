//! Lists of fields.

use byte_grammar::{Sequence, Text};

/// A field: a header or trailer field, or a pseudo-header field, whose name begins with a colon
/// (RFC 9113 section 8.3, RFC 9114 section 4.3).
#[derive(Drop)]
pub struct Field {
    pub name: Text,
    pub value: Text,
}

/// A message as a list of fields. Nothing says that it is one of HTTP/2 or HTTP/3: any names and
/// values may be in it.
#[derive(Drop)]
pub struct FieldList {
    /// The pseudo-header fields and the header fields, in order.
    pub fields: Sequence<Field>,
    /// The content.
    pub content: Text,
    /// The trailer fields, in order.
    pub trailers: Sequence<Field>,
}
