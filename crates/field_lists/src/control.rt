//! The control data that pseudo-header fields say (RFC 9113 section 8.3, RFC 9114 section 4.3).

ghost use Rattle.std.specs.Prelude.{◌≡◌, ℕ, List, length, IfSome, IfNone};
ghost use Rattle.std.specs.Char.{is_ascii_uppercase};
ghost use Rattle.std.specs.List.{Contains, list_all, list_any};
ghost use Rattle.list_texts.specs.declared.list.Field.{Field};
ghost use Rattle.field_lists.specs.Controls.{Control as ControlData, RequestControl as RequestData, request, response, AreOfRequest, HasPseudo, field_of, is_text, is_lower_scheme, is_path_text, is_request, is_without_content};
ghost use Rattle.field_lists.specs.tools.Allowed.{has_no_fragment, is_allowed, is_allowed_request, is_method};
ghost use Rattle.field_lists.specs.tools.Sizes.{LeavesRoom, own_size};
ghost use Rattle.field_lists.specs.tools.Views.{control_of, request_of};
ghost use Rattle.derived_values.specs.Targets.{is_scheme};
ghost use Rattle.derived_values.specs.UriBytes.{is_scheme_byte};

use crate::named::split_named;
use byte_grammar::{Byte, Class, allows_all, is_token, starts_with};
use list_texts::Field;
use msg_head::is_code;

/// What the pseudo-header fields of a request say, borrowed from them (RFC 9113 section 8.3.1).
#[derive(Clone, Copy)]
pub(crate) struct RequestControl<'l> {
    pub method: &'l [u8],
    pub scheme: &'l [u8],
    pub authority: &'l [u8],
    pub path: &'l [u8],
}

/// What a message does: a request, or a response with its status code.
#[derive(Clone, Copy)]
pub(crate) enum Control<'l> {
    Request(RequestControl<'l>),
    Response(&'l [u8]),
}

// The value of the first field of the name.
fn value_of<'l>(fields: &'l [Field], name: &[u8]) -> Option<&'l [u8]>
    ensures some { IfSome result (λ value. Contains fields.now (field_of name.now value.now)) }
    ensures none { IfNone result ((value : List ℕ)
        → ¬ Contains fields.now (field_of name.now value)) }
{
    let (field, _) = split_named(name, fields)?;
    Some(field.value.bytes())
}

// The control data of a request, whose pseudo-header fields are these four.
fn request_of(fields: &[Field]) -> Option<RequestControl<'_>>
    requires { length fields.now ≡ 4 }
    ensures some { IfSome result (λ control. AreOfRequest fields.now (request_of control)) }
    ensures none { IfNone result ((control : RequestData) → ¬ AreOfRequest fields.now control) }
{
    let method = value_of(fields, b":method")?;
    let scheme = value_of(fields, b":scheme")?;
    let authority = value_of(fields, b":authority")?;
    let path = value_of(fields, b":path")?;
    Some(RequestControl {
        method,
        scheme,
        authority,
        path,
    })
}

// A token other than CONNECT, since tunnels aren't read (RFC 9113 section 8.5).
fn is_method(text: &[u8]) -> bool
    ensures { result ≡ is_method text.now }
{
    is_token(text) && text != b"CONNECT".as_slice()
}

// What a scheme has after its first letter.
fn is_scheme_byte(byte: u8) -> bool
    ensures { result ≡ is_scheme_byte byte }
{
    byte.is_ascii_alphanumeric() || matches!(byte, b'+' | b'-' | b'.')
}

fn are_scheme_bytes(bytes: &[u8]) -> bool
    ensures { result ≡ list_all is_scheme_byte bytes.now }
{
    bytes.iter().all(|byte| is_scheme_byte(*byte))
}

// A scheme (RFC 3986 section 3.1).
fn is_scheme(text: &[u8]) -> bool
    ensures { result ≡ is_scheme text.now }
{
    match text.split_first() {
        None => false,
        Some((first, rest)) => first.is_ascii_alphabetic() && are_scheme_bytes(rest),
    }
}

fn has_upper_case(text: &[u8]) -> bool
    ensures { result ≡ list_any is_ascii_uppercase text.now }
{
    text.iter().any(|byte| byte.is_ascii_uppercase())
}

// A scheme in lower case.
fn is_lower_scheme(text: &[u8]) -> bool
    ensures { result ≡ is_lower_scheme text.now }
{
    is_scheme(text) && !has_upper_case(text)
}

// Visible bytes of ASCII, one or more.
fn is_text(text: &[u8]) -> bool
    ensures { result ≡ is_text text.now }
{
    !text.is_empty() && allows_all(Class::Visible, text)
}

// Visible bytes without a fragment.
fn has_no_fragment(text: &[u8]) -> bool
    ensures { result ≡ has_no_fragment text.now }
{
    allows_all(Class::Visible, text) && !text.contains(&b'#')
}

// A path and a query, without a fragment.
fn is_path_text(text: &[u8]) -> bool
    ensures { result ≡ is_path_text text.now }
{
    starts_with(Byte(b'/'), text) && has_no_fragment(text)
}

impl<'l> RequestControl<'l> {
    /// Whether the values are those that pseudo-header fields may have here.
    fn is_allowed(&self) -> bool
        ensures { result ≡ is_allowed_request (request_of self.now) }
    {
        is_method(self.method)
            && is_lower_scheme(self.scheme)
            && is_text(self.authority)
            && is_path_text(self.path)
    }
}

// The control data of the response that begins with this field, and the other fields.
fn response_control(fields: &[Field]) -> Option<(Control<'_>, &[Field])>
    ensures some { IfSome result (λ parts.
        HasPseudo fields.now (control_of parts.0) parts.1.now) }
    ensures none { IfNone result ((code : List ℕ) (others : List Field)
        → ¬ HasPseudo fields.now (response code) others) }
{
    let (first, others) = fields.split_first()?;
    if first.name.bytes() != b":status".as_slice() {
        return None;
    }
    Some((Control::Response(first.value.bytes()), others))
}

// The control data of the request that begins with four fields, and the other fields.
fn request_control(fields: &[Field]) -> Option<(Control<'_>, &[Field])>
    ensures some { IfSome result (λ parts.
        HasPseudo fields.now (control_of parts.0) parts.1.now) }
    ensures none { IfNone result ((control : RequestData) (others : List Field)
        → ¬ HasPseudo fields.now (request control) others) }
{
    if fields.len() < 4 {
        return None;
    }
    let (pseudo, others) = fields.split_at(4);
    let control = request_of(pseudo)?;
    Some((Control::Request(control), others))
}

/// The control data with which the fields begin, and the other fields (RFC 9113 section 8.3).
pub(crate) fn split_control(fields: &[Field]) -> Option<(Control<'_>, &[Field])>
    ensures some { IfSome result (λ parts. HasPseudo fields.now (control_of parts.0) parts.1.now) }
    ensures none { IfNone result ((control : ControlData) (others : List Field)
        → ¬ HasPseudo fields.now control others) }
{
    if let Some(parts) = response_control(fields) {
        return Some(parts);
    }
    request_control(fields)
}

impl<'l> Control<'l> {
    /// Whether the values are those that pseudo-header fields may have here.
    pub(crate) fn is_allowed(&self) -> bool
        ensures { result ≡ is_allowed (control_of self.now) }
    {
        match self {
            Control::Request(control) => control.is_allowed(),
            Control::Response(code) => is_code(code),
        }
    }

    /// Whether it is a request.
    pub(crate) fn is_request(&self) -> bool
        ensures { result ≡ is_request (control_of self.now) }
    {
        matches!(self, Control::Request(_))
    }

    /// How many bytes are left of so many after the start line and the `Host` line.
    pub(crate) fn room_after_own(&self, room: usize) -> Option<usize>
        ensures { LeavesRoom result (own_size (control_of self.now)) room }
    {
        match self {
            Control::Request(control) => {
                let after_method = room.checked_sub(control.method.len())?;
                let after_path = after_method.checked_sub(control.path.len())?;
                let after_authority = after_path.checked_sub(control.authority.len())?;
                after_authority.checked_sub(b"  HTTP/1.1\r\nhost: \r\n".len())
            }
            Control::Response(code) => {
                let after_code = room.checked_sub(code.len())?;
                after_code.checked_sub(b"HTTP/1.1  \r\n".len())
            }
        }
    }

    /// Whether it is a response that has no content, whatever its fields say (RFC 9110 section
    /// 6.4.1).
    pub(crate) fn is_without_content(&self) -> bool
        ensures { result ≡ is_without_content (control_of self.now) }
    {
        match self {
            Control::Request(_) => false,
            Control::Response(code) => {
                code.first() == Some(&b'1')
                    || *code == b"204".as_slice()
                    || *code == b"304".as_slice()
            }
        }
    }
}
