//! How the value of a component is fed.

ghost use Rattle.std.specs.Prelude.{◌++◌, ℕ, List};
ghost use Rattle.component_values.specs.tools.Rows.{planned_text};

use crate::lines::{feed_byte_sequences, feed_combined};
use derived_values::Derived;
use msg_head::NamedFieldLines;
use sfv_text::{Absorb, Text};

/// How the value of a component is fed. But for a text it is borrowed from its message.
#[derive(Drop)]
pub(crate) enum Plan<'a, 'm> {
    /// A combined value that is one piece of the message.
    Piece(&'m [u8]),
    /// The combined value of these lines.
    Combined(NamedFieldLines<'a, 'm>),
    /// The value of each of these lines as a Byte Sequence.
    ByteSequences(NamedFieldLines<'a, 'm>),
    /// The value of a derived component.
    Derived(Derived<'m>),
    /// A strict text (RFC 9421 sections 2.1.1 and 2.1.2).
    Text(Text),
}

impl<'a, 'm> Plan<'a, 'm> {
    /// Feeds the value. It takes no memory and can't fail.
    pub(crate) fn feed<A: Absorb>(&self, into: &mut A)
        ensures { (text : List ℕ) → A.absorbed into.old text
            → A.absorbed into.new (text ++ planned_text self.now) }
    {
        match self {
            Plan::Piece(value) => into.absorb(value),
            Plan::Combined(lines) => feed_combined(lines, into),
            Plan::ByteSequences(lines) => feed_byte_sequences(lines, into),
            Plan::Derived(value) => value.feed(into),
            Plan::Text(text) => into.absorb(text.bytes()),
        }
    }
}
