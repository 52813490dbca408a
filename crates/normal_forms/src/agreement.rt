//! What two messages have in common.

ghost use Rattle.std.specs.Prelude.{◌≡◌, ◌↔◌, IsTrue, MatchOption};
ghost use Rattle.std.specs.List.{All};
ghost use Rattle.component_values.specs.Values.{side_of};
ghost use Rattle.msg_body.specs.SameFields.{HasSameField};
ghost use Rattle.msg_body.specs.Views.{lines_on, message_of};
ghost use Rattle.msg_head.specs.Heads.{IsHead};
ghost use Rattle.msg_head.specs.Values.{line_values, values};
ghost use Rattle.normal_forms.specs.Agreement.{AgreeOn, AreOfOneBasis, HasSameBasis, HasSameFixed};
ghost use Rattle.normal_forms.specs.Explanations.{DifferFirstAt};
ghost use Rattle.normal_forms.specs.tools.Judged.{IsFirstOther};

use crate::basis::{Basis, FixedName};
use crate::normal::start_line;
use crate::pieces::{TextPieces, are_same_text};
use component_ids::{ComponentId, has_param};
use line_rewrites::is_own_field;
use msg_body::{MessageView, joined_pieces, line_pieces};
use msg_head::{NamedFieldLines, Side};

/// Whether both have the same values, line by line.
fn have_same_values(one: NamedFieldLines<'_, '_>, other: NamedFieldLines<'_, '_>) -> bool
    ensures { IsTrue result ↔ (line_values other.entry ≡ line_values one.entry) }
{
    if one.len() != other.len() {
        return false;
    }
    let mut lines = one;
    let mut others = other;
    'lines: while let Some(line) = lines.next() {
        let Some(another) = others.next() else {
            unreachable!()
        };
        if !are_same_text(
            TextPieces::Line(line_pieces(line)),
            TextPieces::Line(line_pieces(another)),
        ) {
            return false;
        }
    }
    true
}

/// Whether the sides have the same values of the name, which is in lower case, line by line.
fn has_same_values(
    message: &MessageView<'_>,
    other: &MessageView<'_>,
    side: Side,
    name: &[u8],
) -> bool
    ensures { IsTrue result ↔ (values (lines_on side (message_of other.now)) name.now
        ≡ values (lines_on side (message_of message.now)) name.now) }
{
    have_same_values(
        message.lines_named(side, name),
        other.lines_named(side, name),
    )
}

/// Whether both sides have lines of the name, which is in lower case, or neither has, with one
/// combined value.
fn has_same_field(
    message: &MessageView<'_>,
    other: &MessageView<'_>,
    side: Side,
    name: &[u8],
) -> bool
    ensures { IsTrue result ↔ HasSameField (lines_on side (message_of message.now))
        (lines_on side (message_of other.now)) name.now }
{
    let lines = message.lines_named(side, name);
    let others = other.lines_named(side, name);
    if lines.is_empty() {
        return others.is_empty();
    }
    if others.is_empty() {
        return false;
    }
    are_same_text(
        TextPieces::Field(joined_pieces(lines)),
        TextPieces::Field(joined_pieces(others)),
    )
}

// ---- what is covered

/// The side on which a component has its lines (RFC 9421 section 2.1.4).
fn side_of(id: &ComponentId) -> Side
    ensures { result ≡ side_of id.now.params }
{
    if has_param(&id.params, b"tr") {
        Side::Trailer
    } else {
        Side::Header
    }
}

/// Whether the messages agree on the component.
fn agree_on(message: &MessageView<'_>, other: &MessageView<'_>, id: &ComponentId) -> bool
    ensures { IsTrue result ↔ AgreeOn (message_of message.now) (message_of other.now) id.now }
{
    if !is_own_field(id) {
        return true;
    }
    let side = side_of(id);
    if has_param(&id.params, b"bs") {
        has_same_values(message, other, side, id.name.bytes())
    } else {
        has_same_field(message, other, side, id.name.bytes())
    }
}

/// The index of the first component on which the messages don't agree.
pub(crate) fn first_difference(
    message: &MessageView<'_>,
    other: &MessageView<'_>,
    ids: &[ComponentId],
) -> Option<usize>
    ensures { MatchOption result
        (All (AgreeOn (message_of message.now) (message_of other.now)) ids.now)
        (λ index. DifferFirstAt (message_of message.now) (message_of other.now) index ids.now) }
{
    for (index, id) in ids.iter().enumerate() {
        if !agree_on(message, other, id) {
            return Some(index);
        }
    }
    None
}

// ---- the basis

/// Whether the messages have the same of the name on the side.
fn has_same_fixed(
    message: &MessageView<'_>,
    other: &MessageView<'_>,
    side: Side,
    name: FixedName,
) -> bool
    ensures { IsTrue result
        ↔ HasSameFixed name side (message_of message.now) (message_of other.now) }
{
    match name {
        FixedName::Signature | FixedName::SignatureInput => {
            has_same_field(message, other, side, name.text())
        }
        _ => has_same_values(message, other, side, name.text()),
    }
}

/// Whether the messages have it the same.
fn has_same_basis(message: &MessageView<'_>, other: &MessageView<'_>, basis: Basis) -> bool
    requires first { IsHead (message_of message.now).head }
    requires second { IsHead (message_of other.now).head }
    ensures { IsTrue result
        ↔ HasSameBasis (message_of message.now) (message_of other.now) basis }
{
    match basis {
        Basis::StartLine => start_line(message) == start_line(other),
        Basis::Content => are_same_text(
            TextPieces::Content(message.content_pieces()),
            TextPieces::Content(other.content_pieces()),
        ),
        Basis::Field { side, name } => has_same_fixed(message, other, side, name),
    }
}

/// What isn't explained, in the order in which it is judged.
const BASES: [Basis; 12] = [
    Basis::StartLine,
    Basis::Content,
    Basis::Field {
        side: Side::Header,
        name: FixedName::Host,
    },
    Basis::Field {
        side: Side::Header,
        name: FixedName::ContentLength,
    },
    Basis::Field {
        side: Side::Header,
        name: FixedName::TransferEncoding,
    },
    Basis::Field {
        side: Side::Header,
        name: FixedName::Signature,
    },
    Basis::Field {
        side: Side::Header,
        name: FixedName::SignatureInput,
    },
    Basis::Field {
        side: Side::Trailer,
        name: FixedName::Host,
    },
    Basis::Field {
        side: Side::Trailer,
        name: FixedName::ContentLength,
    },
    Basis::Field {
        side: Side::Trailer,
        name: FixedName::TransferEncoding,
    },
    Basis::Field {
        side: Side::Trailer,
        name: FixedName::Signature,
    },
    Basis::Field {
        side: Side::Trailer,
        name: FixedName::SignatureInput,
    },
];

/// The first of what isn't explained in which the messages differ.
pub(crate) fn first_other(message: &MessageView<'_>, other: &MessageView<'_>) -> Option<Basis>
    requires first { IsHead (message_of message.now).head }
    requires second { IsHead (message_of other.now).head }
    ensures { MatchOption result
        (AreOfOneBasis (message_of message.now) (message_of other.now))
        (IsFirstOther (message_of message.now) (message_of other.now)) }
{
    for basis in &BASES {
        if !has_same_basis(message, other, *basis) {
            return Some(*basis);
        }
    }
    None
}
