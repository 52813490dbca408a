// Tests of line_index, msg_head, framing and values of fields.

ghost use Rattle.std.specs.Iterator.{IsFinite};

use crate::given::{is_text, message};
use framing::{Framing, read_framing};
use line_index::{LineIndex, LineSpan};
use msg_body::{
    MessageView, combined_pieces, combined_text, count_lines, joined_value, line_pieces,
};
use msg_head::{
    HeadRead, HeadView, LineView, NamedFieldLines, Side, Start, TrailerRead, TrailerView,
    read_head, read_trailer,
};
use std::alloc::Global;

// Whether the pieces together are the text.
pub(crate) fn are_pieces<'m, I: Iterator<Item = &'m [u8]> + Drop>(pieces: I, text: &[u8]) -> bool
    requires { I.can_next pieces × IsFinite (I.remaining pieces) }
{
    let mut left = text;
    for piece in pieces {
        let Some(rest) = left.strip_prefix(piece) else {
            return false;
        };
        left = rest;
    }
    left.is_empty()
}

// A text, the head that it begins with, and how the content is framed.
struct Head {
    bytes: &'static [u8],
    used: usize,
    // The reason phrase of a status line, which is in no signature base.
    reason: Option<&'static [u8]>,
    lines: &'static [LineView<'static>],
    to_head: bool,
    framing: Framing,
    length: usize,
}

// The field lines of a response, which come after chunks too.
const LINES: [LineView<'static>; 2] = [
    LineView {
        name: b"A",
        raw: b"b\r\n c\r\n\t",
    },
    LineView {
        name: b"D",
        raw: b" e",
    },
];

// The examples of msg_head and of framing. An answer to a HEAD request has no content.
const HEADS: [Head; 5] = [
    Head {
        bytes: b"GET / HTTP/1.1\r\nHost: example.com\r\n\r\n",
        used: 37,
        reason: None,
        lines: &[LineView {
            name: b"Host",
            raw: b" example.com",
        }],
        to_head: false,
        framing: Framing::None,
        length: 0,
    },
    Head {
        bytes: b"HTTP/1.0 404 Not \xff\r\nA:b\r\n c\r\n\t\r\nD: e\r\n\r\nmore",
        used: 40,
        reason: Some(b"Not \xff"),
        lines: &LINES,
        to_head: false,
        framing: Framing::ToEnd,
        length: 0,
    },
    Head {
        bytes: b"POST / HTTP/1.1\r\nContent-Length: 18\r\n\r\n",
        used: 39,
        reason: None,
        lines: &[LineView {
            name: b"Content-Length",
            raw: b" 18",
        }],
        to_head: false,
        framing: Framing::Length,
        length: 18,
    },
    Head {
        bytes: b"HTTP/1.1 200 OK\r\nContent-Length: 18\r\n\r\n",
        used: 39,
        reason: Some(b"OK"),
        lines: &[LineView {
            name: b"Content-Length",
            raw: b" 18",
        }],
        to_head: true,
        framing: Framing::None,
        length: 18,
    },
    Head {
        bytes: b"HTTP/1.1 200\r\nTransfer-Encoding: chunked\r\n\r\n",
        used: 44,
        reason: None,
        lines: &[LineView {
            name: b"Transfer-Encoding",
            raw: b" chunked",
        }],
        to_head: true,
        framing: Framing::None,
        length: 0,
    },
];

fn is_line(line: LineView<'_>, wanted: &LineView<'_>) -> bool {
    line.name == wanted.name && line.raw == wanted.raw
}

// Whether the head has these field lines.
fn has_lines(head: &HeadView<'_>, lines: &[LineView<'_>]) -> bool {
    if head.line_count() != lines.len() {
        return false;
    }
    for (index, line) in lines.iter().enumerate() {
        if !is_line(head.line(index), line) {
            return false;
        }
    }
    true
}

fn has_reason(head: &HeadView<'_>, wanted: Option<&[u8]>) -> bool {
    match head.start() {
        Start::Request { .. } => wanted.is_none(),
        Start::Status { reason, .. } => reason == wanted,
    }
}

fn is_framed(head: &HeadView<'_>, row: &Head) -> bool {
    match read_framing(head, row.to_head) {
        Ok(framed) => framed.framing == row.framing && framed.length == row.length,
        Err(_) => false,
    }
}

fn is_head(head: &HeadView<'_>, row: &Head) -> bool {
    has_reason(head, row.reason) && has_lines(head, row.lines) && is_framed(head, row)
}

fn is_read(alloc: Global, row: &Head) -> bool {
    match read_head(alloc, row.bytes) {
        Ok(HeadRead::Whole(head, used)) => used == row.used && is_head(&head, row),
        _ => false,
    }
}

fn are_lines(trailer: &TrailerView<'_>, lines: &[LineView<'_>; 2]) -> bool {
    trailer.line_count() == 2
        && is_line(trailer.line(0), &lines[0])
        && is_line(trailer.line(1), &lines[1])
}

fn is_trailer(alloc: Global) -> bool {
    match read_trailer(alloc, b"A:b\r\n c\r\n\t\r\nD: e\r\n\r\nmore") {
        Ok(TrailerRead::Whole(trailer, used)) => used == 20 && are_lines(&trailer, &LINES),
        _ => false,
    }
}

#[test]
fn heads_are_read_and_framed_and_trailer_sections_are_read(rt: HostRuntime) {
    for row in &HEADS {
        assert!(rt; is_read(rt.alloc(), row));
    }
    assert!(rt; is_trailer(rt.alloc()));
}

// The example of a line's name.
fn is_in_pieces() -> bool {
    let line = LineView {
        name: b"X",
        raw: b" a\r\n  b ",
    };
    line.is_named(b"x")
        && !line.is_named(b"X")
        && are_pieces(line.value_pieces(), b"a b")
        && are_pieces(line_pieces(line), b"a b")
}

// Whether the values of the lines are the text, joined.
fn is_value(alloc: Global, lines: NamedFieldLines<'_, '_>, text: &[u8]) -> bool {
    match joined_value(alloc, lines) {
        Ok(value) => value.bytes() == text,
        Err(_) => false,
    }
}

fn is_combined(alloc: Global, view: &MessageView<'_>) -> bool {
    are_pieces(combined_pieces(view, Side::Header, b"x"), b"a b, c")
        && count_lines(view, Side::Header, b"x") == 2
        && is_value(alloc, view.lines_named(Side::Header, b"x"), b"a b, c")
        && is_text(combined_text(alloc, view, Side::Header, b"x"), b"a b, c")
}

// The example of values of fields in msg_body.
fn are_combined(alloc: Global) -> bool {
    match message(alloc, b"GET / HTTP/1.1\r\nX: a\r\n  b \r\nx: c\r\n\r\n") {
        Some(given) => is_combined(alloc, &given.view),
        None => false,
    }
}

#[test]
fn values_come_in_pieces(rt: HostRuntime) {
    assert!(rt; is_in_pieces() && are_combined(rt.alloc()));
}

const INDEXED: &[u8] = b"Host: a\r\nAccept: b\r\n";

const HOST: LineSpan = LineSpan {
    name: 0,
    colon: 4,
    end: 7,
};

const ACCEPT: LineSpan = LineSpan {
    name: 9,
    colon: 15,
    end: 18,
};

// Whether the one line of the name is there.
fn is_only(lines: &LineIndex<'_>, name: &[u8], span: LineSpan) -> bool {
    let mut named = lines.named(name);
    named.next() == Some(span) && named.is_empty()
}

fn are_two(lines: &LineIndex<'_>) -> bool {
    lines.len() == 2
        && is_only(lines, b"host", HOST)
        && is_only(lines, b"accept", ACCEPT)
        && lines.named(b"Host").is_empty()
}

// The example of line_index.
fn are_found(alloc: Global) -> bool {
    let Ok(spans) = vec![in alloc; HOST, ACCEPT] else {
        return false;
    };
    match LineIndex::new(alloc, INDEXED, spans) {
        Ok(lines) => are_two(&lines),
        Err(_) => false,
    }
}

#[test]
fn lines_are_found_by_name(rt: HostRuntime) {
    assert!(rt; are_found(rt.alloc()));
}
