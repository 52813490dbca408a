//! The view of a message.

ghost use Rattle.std.specs.Prelude.{◌≡◌, ◌+◌, ◌<◌, ◌≤◌, ◌++◌, OnOk, length, filter, take, slice_get, Some};
ghost use Rattle.std.specs.List.{flat_map};
ghost use Rattle.msg_head.specs.Heads.{head_text};
ghost use Rattle.msg_head.specs.Lines.{line_text};
ghost use Rattle.msg_head.specs.Names.{has_name};
ghost use Rattle.msg_head.specs.Views.{field_line_of, start_line_of};
ghost use Rattle.msg_body.specs.Messages.{message_text};
ghost use Rattle.msg_body.specs.Views.{message_of, has_trailers, lines_on, lines_start, message_content};
ghost use Rattle.msg_body.specs.Content.{body_parts, content_left};

use crate::body::BodyView;
use crate::content::ContentPieces;
use framing::Framing;
use msg_head::{HeadView, LineView, NamedFieldLines, Side, Start};
use sfv_text::{Memory, Text};
use std::marker::Model;

/// A message, borrowed from its bytes. A contract sees it as the views of its head and its body and
/// its framing, of which the message that it spells is a function. The bytes are its text.
#[derive(Drop)]
pub struct MessageView<'m> {
    bytes: &'m [u8],
    head: HeadView<'m>,
    framing: Framing,
    body: BodyView<'m>,
}

impl<'m> Model for MessageView<'m> {
    ghost use Rattle.std.specs.Prelude.{◌≡◌};
    ghost use Rattle.msg_body.specs.Messages.{message_text};
    ghost use Rattle.msg_body.specs.Views.{MessageParts, message_of};
    ghost use Rattle.msg_body.specs.Content.{body_parts};

    ghost Value = { MessageParts };

    ghost view = { λ m. record {
      head = m.head;
      framing = m.framing;
      body = body_parts m.body;
    } };

    ghost invariant = { λ m. m.bytes.now ≡ message_text (message_of (record {
      head = m.head;
      framing = m.framing;
      body = body_parts m.body;
    })) };
}

impl<'m> MessageView<'m> {
    /// The view of a message of these bytes and parts.
    pub(crate) fn new(
        bytes: &'m [u8],
        head: HeadView<'m>,
        framing: Framing,
        body: BodyView<'m>,
    ) -> MessageView<'m>
        requires { bytes.now ≡ message_text (message_of (record {
          head = head;
          framing = framing;
          body = body_parts body;
        })) }
        ensures { result ≡ record {
          head = head.entry;
          framing = framing;
          body = body_parts body.entry;
        } }
    {
        MessageView {
            bytes,
            head,
            framing,
            body,
        }
    }

    /// The bytes of the message, which are its text.
    pub fn bytes(&self) -> &'m [u8]
        ensures { result.now ≡ message_text (message_of self.now) }
    {
        self.bytes
    }

    /// How many bytes the head has, the empty line at its end included.
    pub fn head_len(&self) -> usize
        ensures { result ≡ length (head_text (message_of self.now).head) }
    {
        self.head.bytes().len()
    }

    /// The start line.
    pub fn start(&self) -> Start<'m>
        ensures { start_line_of result ≡ self.now.head.start }
    {
        self.head.start()
    }

    /// What says where the content ends.
    pub fn framing(&self) -> Framing
        ensures { result ≡ self.now.framing }
    {
        self.framing
    }

    /// What comes after the head.
    pub(crate) fn body(&self) -> &BodyView<'m>
        ensures { body_parts result.now ≡ self.now.body }
    {
        &self.body
    }

    /// Whether the content is in chunks, so that a trailer section comes after it (RFC 9112 section
    /// 7.1.2).
    pub fn has_trailers(&self) -> bool
        ensures { result ≡ has_trailers (message_of self.now).body }
    {
        matches!(self.body, BodyView::Chunked(_, _))
    }

    /// How many field lines the side has.
    pub fn line_count(&self, side: Side) -> usize
        ensures { result ≡ length (lines_on side (message_of self.now)) }
    {
        match side {
            Side::Header => self.head.line_count(),
            Side::Trailer => match &self.body {
                BodyView::Plain(_) => 0,
                BodyView::Chunked(_, trailer) => trailer.line_count(),
            },
        }
    }

    /// The field line with that index on the side.
    pub fn line(&self, side: Side, index: usize) -> LineView<'m>
        requires { index < length (lines_on side (message_of self.now)) }
        ensures { slice_get (lines_on side (message_of self.now)) index
            ≡ Some (field_line_of result) }
    {
        match side {
            Side::Header => self.head.line(index),
            Side::Trailer => match &self.body {
                BodyView::Plain(_) => unreachable!(),
                BodyView::Chunked(_, trailer) => trailer.line(index),
            },
        }
    }

    /// The offset of the field line with that index on the side, or of what comes after the field
    /// lines where the index is their count. A message without a trailer section has no field lines
    /// there, and ends there.
    pub fn line_offset(&self, side: Side, index: usize) -> usize
        requires { index ≤ length (lines_on side (message_of self.now)) }
        ensures { result ≡ lines_start side (message_of self.now)
            + length (flat_map line_text (take index (lines_on side (message_of self.now)))) }
    {
        match side {
            Side::Header => self.head.line_offset(index),
            Side::Trailer => match &self.body {
                BodyView::Plain(_) => self.bytes.len(),
                BodyView::Chunked(_, trailer) => {
                    self.bytes.len() - trailer.bytes().len() + trailer.line_offset(index)
                }
            },
        }
    }

    /// The field lines of the side that have the name, which is in lower case, in order.
    pub fn lines_named(&self, side: Side, name: &[u8]) -> NamedFieldLines<'_, 'm>
        ensures { result ≡ filter (has_name name.now) (lines_on side (message_of self.now)) }
    {
        match side {
            Side::Header => self.head.lines_named(name),
            Side::Trailer => match &self.body {
                BodyView::Plain(_) => NamedFieldLines::empty(),
                BodyView::Chunked(_, trailer) => trailer.lines_named(name),
            },
        }
    }

    /// How many bytes the content has, chunks taken off (RFC 9110 section 6.4).
    pub fn content_len(&self) -> usize
        ensures { result ≡ length (message_content (message_of self.now)) }
    {
        match &self.body {
            BodyView::Plain(content) => content.len(),
            BodyView::Chunked(chunks, _) => chunks.content_len(),
        }
    }

    /// The pieces of the content, in order, borrowed from the message's bytes.
    pub fn content_pieces(&self) -> ContentPieces<'m>
        ensures { content_left result ≡ message_content (message_of self.now) }
    {
        ContentPieces::new(&self.body)
    }

    /// Adds the content to the text.
    pub fn append_content(&self, text: &mut Text) -> Result<(), Memory>
        ensures { OnOk result (text.new ≡ text.old ++ message_content (message_of self.now)) }
    {
        for piece in self.content_pieces() {
            text.append(piece)?;
        }
        Ok(())
    }
}
