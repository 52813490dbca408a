//! A list of fields with its control data, and what is judged of it.

ghost use Rattle.std.specs.Prelude.{◌≡◌, ◌+◌, ◌<◌, ℕ, List, IfOk, IfSome, IfNone, IsTrue, IsFalse, codes, length, map, nat_le, nat_lt, position};
ghost use Rattle.byte_grammar.specs.Causes.{IsFirst};
ghost use Rattle.framing.specs.Framings.{is_length};
ghost use Rattle.msg_head.specs.declared.limits.TheConstants.{MAX_HEAD_BYTES, MAX_HEAD_LINES};
ghost use Rattle.msg_head.specs.Heads.{head_text};
ghost use Rattle.msg_head.specs.Trailers.{trailer_text};
ghost use Rattle.field_lists.specs.Controls.{Control as ControlData, IsOf};
ghost use Rattle.field_lists.specs.ToCauses.{is_good, is_refused_name, is_body_refused, limit_order, IsBadLength, IsFirstBad, Passes};
ghost use Rattle.field_lists.specs.ToMessages.{has_body, has_field, head_lines, head_with, is_in_chunks, line_of_field, message_with};
ghost use Rattle.list_texts.specs.declared.list.Field.{Field};
ghost use Rattle.field_lists.specs.declared.to_fault.MessageLimit.{MessageLimit};
ghost use Rattle.field_lists.specs.tools.PartViews.{ArePartsOf, JudgesList, is_bad, is_good_name, is_other_scheme, is_wrong_length};
ghost use Rattle.field_lists.specs.tools.Sizes.{LeavesRoom, coding_size, fixed_size, line_size, lines_size};
ghost use Rattle.field_lists.specs.tools.Views.{control_of};

use crate::control::{Control, split_control};
use crate::named::{has_field, split_named};
use crate::to_fault::{MessageLimit, ToFault};
use crate::values::value_of_line;
use byte_grammar::{Class, Memory, allows_all, is_field_name, number_of_digits};
use component_ids::Scheme;
use derived_values::scheme_text;
use list_texts::{Field, FieldList};
use msg_head::{LineView, MAX_HEAD_BYTES, MAX_HEAD_LINES};
use std::alloc::Global;

/// A list, the control data with which it begins, and its other fields.
#[derive(Clone, Copy)]
pub(crate) struct Parts<'l> {
    pub control: Control<'l>,
    pub others: &'l [Field],
    pub list: &'l FieldList,
}

// `Host`, and the fields that are of one connection of HTTP/1.1 alone (RFC 9113 sections 8.2.2 and
// 8.3.1).
const REFUSED_NAMES: [&[u8]; 6] = [
    b"host",
    b"connection",
    b"keep-alive",
    b"proxy-connection",
    b"transfer-encoding",
    b"upgrade",
];

/// Whether it is the name, in lower case, of a field that isn't turned.
pub(crate) fn is_refused_name(name: &[u8]) -> bool
    ensures { result ≡ is_refused_name name.now }
{
    byte_grammar::is_listed(&REFUSED_NAMES, name)
}

// Whether it is the name, in lower case, of a field that is turned (RFC 9113 section 8.2).
fn is_good_name(name: &[u8]) -> bool
    ensures { result ≡ is_good_name name.now }
{
    is_field_name(name) && !is_refused_name(name)
}

// Whether the field is one that is turned.
fn is_good(field: &Field) -> bool
    ensures { result ≡ is_good field.now }
{
    is_good_name(field.name.bytes()) && allows_all(Class::LineByte, field.value.bytes())
}

// The index of the first field that isn't.
fn first_bad(fields: &[Field]) -> Option<usize>
    ensures { result ≡ position is_bad fields.now }
{
    fields.iter().position(|field| !is_good(field))
}

// Whether it is a length: digits, not too many (RFC 9110 section 8.6).
fn is_length(text: &[u8]) -> bool
    ensures { result ≡ is_length text.now }
{
    !text.is_empty() && text.len() <= framing::MAX_LENGTH_DIGITS && allows_all(Class::Digit, text)
}

// How many bytes are left of so many after the field line of this field.
fn room_after_line(field: &Field, room: usize) -> Option<usize>
    ensures { LeavesRoom result (line_size field.now) room }
{
    let after_name = room.checked_sub(field.name.bytes().len())?;
    let after_value = after_name.checked_sub(field.value.bytes().len())?;
    after_value.checked_sub(b": \r\n".len())
}

// How many bytes are left of so many after the field lines of these fields.
fn room_after(fields: &[Field], room: usize) -> Option<usize>
    ensures { LeavesRoom result (lines_size fields.now) room }
{
    let mut left = room;
    let mut rest = fields;
    'fields: while let Some((field, after)) = rest.split_first() {
        left = room_after_line(field, left)?;
        rest = after;
    }
    Some(left)
}

// Whether the trailer section of these fields is within its limit.
fn trailers_fit(fields: &[Field]) -> bool
    ensures { result ≡ nat_le (length (trailer_text (map line_of_field fields.now)))
        MAX_HEAD_BYTES }
{
    room_after(fields, MAX_HEAD_BYTES - b"\r\n".len()).is_some()
}

impl<'l> Parts<'l> {
    /// The parts of a list whose pseudo-header fields are right.
    pub(crate) fn of(list: &'l FieldList) -> Option<Parts<'l>>
        ensures some { IfSome result (λ parts. ArePartsOf parts × (parts.list.now ≡ list.now)) }
        ensures none { IfNone result ((control : ControlData) (others : List Field)
            → ¬ IsOf list.now control others) }
    {
        let (control, others) = split_control(list.fields.as_slice())?;
        if !control.is_allowed() {
            return None;
        }
        Some(Parts {
            control,
            others,
            list,
        })
    }

    // Whether the list says another scheme. A response says none.
    fn is_other_scheme(&self, scheme: Scheme) -> bool
        ensures { result ≡ is_other_scheme scheme (control_of self.now.control) }
    {
        match self.control {
            Control::Request(control) => control.scheme != scheme_text(scheme),
            Control::Response(_) => false,
        }
    }

    // The index of the first field that isn't turned.
    fn first_bad(&self) -> Option<usize>
        requires { ArePartsOf self.now }
        ensures some { IfSome result (λ index.
            IsFirstBad self.now.list.now self.now.others.now index) }
        ensures none { IfNone result ((index : ℕ)
            → ¬ IsFirstBad self.now.list.now self.now.others.now index) }
    {
        let fields = self.list.fields.as_slice();
        let pseudo = fields.len() - self.others.len();
        if let Some(index) = first_bad(self.others) {
            return Some(pseudo + index);
        }
        let index = first_bad(self.list.trailers.as_slice())?;
        Some(fields.len() + index)
    }

    /// Whether a length is said.
    pub(crate) fn has_length(&self) -> bool
        ensures { result ≡ has_field (codes "content-length") self.now.others.now }
    {
        has_field(b"content-length", self.others)
    }

    // Whether the text is no length, or isn't the content's.
    fn is_wrong_length(&self, text: &[u8]) -> bool
        ensures { result
            ≡ is_wrong_length (control_of self.now.control) self.now.list.now text.now }
    {
        if !is_length(text) {
            return true;
        }
        let length = number_of_digits(text);
        length != self.list.content.bytes().len() as u64 && !self.control.is_without_content()
    }

    // Whether several lengths are said, or one that is none or isn't that of the content.
    fn is_length_bad(&self, alloc: Global) -> Result<bool, Memory>
        ensures yes { IfOk result (λ bad. IsTrue bad → IsBadLength (control_of self.now.control)
            self.now.others.now self.now.list.now) }
        ensures no { IfOk result (λ bad. IsBadLength (control_of self.now.control)
            self.now.others.now self.now.list.now → IsTrue bad) }
    {
        let Some((field, after)) = split_named(b"content-length", self.others) else {
            return Ok(false);
        };
        if has_field(b"content-length", after) {
            return Ok(true);
        }
        let name = field.name.bytes();
        let raw = field.value.bytes();
        let text = value_of_line(alloc, LineView { name, raw })?;
        let value = text.bytes();
        Ok(self.is_wrong_length(value))
    }

    // Whether there is content, or there are trailer fields.
    fn has_body(&self) -> bool
        ensures { result ≡ has_body self.now.list.now }
    {
        !self.list.content.bytes().is_empty() || !self.list.trailers.as_slice().is_empty()
    }

    // Whether content or trailer fields are there that can't be sent.
    fn is_body_refused(&self) -> bool
        ensures { result ≡ is_body_refused (control_of self.now.control) self.now.others.now
            self.now.list.now }
    {
        if self.control.is_without_content() && self.has_body() {
            return true;
        }
        self.has_length() && !self.list.trailers.as_slice().is_empty()
    }

    /// Whether the content goes in chunks.
    pub(crate) fn is_in_chunks(&self) -> bool
        ensures { result ≡ is_in_chunks (control_of self.now.control) self.now.others.now
            self.now.list.now }
    {
        if self.has_length() {
            return false;
        }
        if self.control.is_request() {
            self.has_body()
        } else {
            !self.control.is_without_content()
        }
    }

    // How many bytes of a head are left after the line that says that chunks come, and the empty
    // line.
    fn room_after_coding(&self) -> usize
        ensures { result + (coding_size (is_in_chunks (control_of self.now.control)
            self.now.others.now self.now.list.now) + 2) ≡ MAX_HEAD_BYTES }
    {
        if self.is_in_chunks() {
            return MAX_HEAD_BYTES - b"transfer-encoding: chunked\r\n\r\n".len();
        }
        MAX_HEAD_BYTES - b"\r\n".len()
    }

    // How many bytes are left after the start line and the `Host` line too.
    fn room_for_fields(&self) -> Option<usize>
        ensures { LeavesRoom result (fixed_size (control_of self.now.control)
            (is_in_chunks (control_of self.now.control) self.now.others.now self.now.list.now))
            MAX_HEAD_BYTES }
    {
        let room = self.room_after_coding();
        self.control.room_after_own(room)
    }

    // Whether the head is within its limit.
    fn head_fits(&self) -> bool
        ensures { result ≡ nat_le (length (head_text (head_with (control_of self.now.control)
            self.now.others.now (is_in_chunks (control_of self.now.control) self.now.others.now
            self.now.list.now)))) MAX_HEAD_BYTES }
    {
        match self.room_for_fields() {
            Some(room) => room_after(self.others, room).is_some(),
            None => false,
        }
    }

    // Whether the head has too many field lines.
    fn has_many_lines(&self) -> bool
        ensures { result ≡ nat_lt MAX_HEAD_LINES (length (head_lines (control_of self.now.control)
            self.now.others.now (is_in_chunks (control_of self.now.control) self.now.others.now
            self.now.list.now))) }
    {
        let host = usize::from(self.control.is_request());
        let coding = usize::from(self.is_in_chunks());
        self.others.len() > MAX_HEAD_LINES - host - coding
    }

    // The limit of messages that is passed, the first in their order.
    fn passed_limit(&self) -> Option<MessageLimit>
        requires { IsFalse (is_body_refused (control_of self.now.control) self.now.others.now
            self.now.list.now) }
        ensures some { IfSome result (λ limit. IsFirst limit_order (Passes (message_with
            (control_of self.now.control) self.now.others.now self.now.list.now)) limit) }
        ensures none { IfNone result ((limit : MessageLimit) → ¬ Passes (message_with
            (control_of self.now.control) self.now.others.now self.now.list.now) limit) }
    {
        if !self.head_fits() {
            return Some(MessageLimit::HeadBytes);
        }
        let trailers = self.list.trailers.as_slice();
        if !trailers_fit(trailers) {
            return Some(MessageLimit::TrailerBytes);
        }
        if self.has_many_lines() {
            return Some(MessageLimit::HeadLines);
        }
        if trailers.len() > MAX_HEAD_LINES {
            return Some(MessageLimit::TrailerLines);
        }
        None
    }

    /// Why the list is turned into no message under the scheme, if anything is.
    pub(crate) fn judge(&self, alloc: Global, scheme: Scheme) -> Result<(), ToFault>
        requires { ArePartsOf self.now }
        ensures { JudgesList self.now.list.now scheme result }
    {
        if self.is_other_scheme(scheme) {
            return Err(ToFault::SchemeOther);
        }
        if let Some(index) = self.first_bad() {
            return Err(ToFault::BadField(index));
        }
        let length_bad = self.is_length_bad(alloc)?;
        if length_bad {
            return Err(ToFault::BadLength);
        }
        if self.is_body_refused() {
            return Err(ToFault::BodyRefused);
        }
        match self.passed_limit() {
            Some(limit) => Err(ToFault::TooLarge(limit)),
            None => Ok(()),
        }
    }
}
